// Additions, step 6 of document 01, on four pools by value.
#![tactic(auto)]

ghost use Rattle.std.specs.Prelude.{◌≡◌, ◌+◌, ◌≤◌, ◌<◌, ◌^◌};
ghost use Rattle.step_pools.specs.Pools.{total};
ghost use Rattle.step_additions.specs.Kinds.{kind_number, HasNumber};
ghost use Rattle.step_additions.specs.Additions.{plant_to_dpm, added};

use number_units::Grams;
use step_pools::share;

// What grows, with document 01's numbers. DPM and RPM share its carbon.
#[derive(Clone, Copy)]
pub enum Kind {
    // crops and improved grassland, 1.44 to 1
    Crops = 1,
    // unimproved grassland and scrub, 0.67 to 1
    Scrub = 2,
    // deciduous and tropical woodland, 0.25 to 1
    Woodland = 3,
}

// No kind has the number.
#[derive(Clone, Copy)]
pub struct NoKind;

impl TryFrom<u64> for Kind {
    type Error = NoKind;

    ghost try_from_gives = { HasNumber };

    fn try_from(number: u64) -> Result<Kind, NoKind> {
        match number {
            1 => Ok(Kind::Crops),
            2 => Ok(Kind::Scrub),
            3 => Ok(Kind::Woodland),
            _ => Err(NoKind),
        }
    }
}

// What a month brings: plant carbon of a kind, and manure.
#[derive(Clone, Copy)]
pub struct Additions {
    pub kind: Kind,
    pub plant: Grams,
    pub manure: Grams,
}

// What DPM gets of plant carbon of a kind.
#[tactic(auto, unfolding(crate::specs::Additions::plant_to_dpm))]
fn plant_to_dpm(kind: Kind, plant: Grams) -> Grams
    ensures { (result.0 ≡ plant_to_dpm (kind_number kind) plant.0) × (result.0 ≤ plant.0) }
{
    match kind {
        Kind::Crops => share(plant, 36, 61),
        Kind::Scrub => share(plant, 67, 167),
        Kind::Woodland => share(plant, 1, 5),
    }
}

impl Additions {
    // Step 6: plant carbon and manure come into the four pools, RPM getting the rest of each.
    // Inlined, as decay is.
    #[tactic(auto, unfolding(step_pools::specs::Pools::share, step_pools::specs::Pools::total))]
    #[inline(always)]
    pub fn added_to(self, pools: [Grams; 4]) -> [Grams; 4]
        requires { total pools + self.plant.0 + self.manure.0 < 2 ^ 64 }
        ensures { result ≡ added pools (kind_number self.kind) self.plant.0 self.manure.0 }
    {
        let [dpm, rpm, bio, hum] = pools;
        let plant_dpm = plant_to_dpm(self.kind, self.plant);
        let plant_rpm = self.plant - plant_dpm;
        let manure_dpm = share(self.manure, 49, 100);
        let manure_hum = share(self.manure, 2, 100);
        let manure_rpm = self.manure - manure_dpm - manure_hum;
        [
            dpm + plant_dpm + manure_dpm,
            rpm + plant_rpm + manure_rpm,
            bio,
            hum + manure_hum,
        ]
    }
}
