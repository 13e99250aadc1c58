// The mathematics that document 01 uses: fractions compared by cross products, and e^(-w) fixed by
// its sums. There is no code here: the definitions are in specs/, the laws about them in proofs/.
#![tactic(auto)]
