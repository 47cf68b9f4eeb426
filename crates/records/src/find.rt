// Where a car's record stands among the records of a station.
ghost use Rattle.std.specs.Prelude.{◌≡◌};
ghost use Rattle.records.specs.Places.{free_place, own_place, place_of};

use messages::CarAddress;
use rules::RecordArray;

// The place of the car's own record, or else the first free place, or neither: three cases, which admission tells apart.
#[derive(Clone, Copy)]
pub enum Found {
    Own(usize),
    Free(usize),
    Nothing,
}

// The place of the car's own record.
fn own_place(records: &RecordArray, car: CarAddress) -> Option<usize>
    ensures { result ≡ own_place car records.now }
{
    records.iter().position(|r| rules::holds(car, *r))
}

// The first free place.
#[tactic(auto, unfolding(rules::specs::Records::is_held))]
fn free_place(records: &RecordArray) -> Option<usize>
    ensures { result ≡ free_place records.now }
{
    records.iter().position(|r| !r.held)
}

// The car's own record wherever it stands, also behind free places; else the first free place.
#[tactic(auto, unfolding(crate::specs::Places::place_of))]
pub fn find(records: RecordArray, car: CarAddress) -> Found
    ensures { result ≡ place_of car records }
{
    match (own_place(&records, car), free_place(&records)) {
        (Some(i), _) => Found::Own(i),
        (None, Some(i)) => Found::Free(i),
        (None, None) => Found::Nothing,
    }
}
