//! Lists of values by number.

ghost use Rattle.std.specs.Prelude.{◌≡◌, set};

/// Sets the value at a place, where the list has that place.
#[tactic(auto, using(std::proofs::lemmas::List::set_past))]
pub fn set_at<T: Copy>(values: &mut [T], place: usize, value: T)
    ensures { values.new ≡ set values.old place value }
{
    if place < values.len() {
        values[place] = value;
    }
}
