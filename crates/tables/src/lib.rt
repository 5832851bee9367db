// The flat tables that the readers fill, the engine works on and the listings show: their layout, their names, and the numbers of
// variables. The definitions in specs/ say what the cells stand for.
#![tactic(auto)]

pub mod layout;
pub mod names;
pub mod numbering;
pub mod rows;

ghost use Rattle.std.specs.Prelude.{◌≡◌, ◌<◌};

// A cell as a number to count with.
pub fn wide(x: u16) -> usize
    ensures { (result ≡ x) × (result < 65536) }
{
    x as usize
}
