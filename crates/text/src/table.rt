// The constant table of the 256 classes.
ghost use Rattle.std.specs.Prelude.{◌≡◌, ◌↔◌, IsTrue, leb};
ghost use Rattle.text.specs.declared.table.Class.TheVariants.{LineFeed, Other};
ghost use Rattle.text.specs.Bytes.{class_of, class_number};
ghost use Rattle.text.specs.Cursors.{class_table};

// What a byte is: each of the 256 values is of one of these classes.
#[derive(Clone, Copy, PartialEq, Eq)]
pub enum Class {
    Small,
    Capital,
    Digit,
    Comma,
    LineFeed,
    Other,
}

impl Class {
    // Whether a byte of this class may stand in a field: letters and digits may.
    pub fn is_plain(self) -> bool
        ensures { result ≡ leb (class_number self) 2 }
    {
        matches!(self, Class::Small | Class::Capital | Class::Digit)
    }

    // Whether a byte of this class may stand nowhere in a line.
    pub fn is_other(self) -> bool
        ensures { IsTrue result ↔ (self ≡ Other) }
    {
        matches!(self, Class::Other)
    }

    // Whether it is the line feed's class.
    pub fn is_feed(self) -> bool
        ensures { IsTrue result ↔ (self ≡ LineFeed) }
    {
        matches!(self, Class::LineFeed)
    }
}

// The classes as the table spells them.
const S: Class = Class::Small;

const C: Class = Class::Capital;

const D: Class = Class::Digit;

const K: Class = Class::Comma;

const F: Class = Class::LineFeed;

const O: Class = Class::Other;

// The class of each byte value.
const CLASSES: [Class; 256] = [
    O, O, O, O, O, O, O, O, O, O, F, O, O, O, O, O, O, O, O, O, O, O, O, O, O, O, O, O, O, O, O, O,
    O, O, O, O, O, O, O, O, O, O, O, O, K, O, O, O, D, D, D, D, D, D, D, D, D, D, O, O, O, O, O, O,
    O, C, C, C, C, C, C, C, C, C, C, C, C, C, C, C, C, C, C, C, C, C, C, C, C, C, C, O, O, O, O, O,
    O, S, S, S, S, S, S, S, S, S, S, S, S, S, S, S, S, S, S, S, S, S, S, S, S, S, S, O, O, O, O, O,
    O, O, O, O, O, O, O, O, O, O, O, O, O, O, O, O, O, O, O, O, O, O, O, O, O, O, O, O, O, O, O, O,
    O, O, O, O, O, O, O, O, O, O, O, O, O, O, O, O, O, O, O, O, O, O, O, O, O, O, O, O, O, O, O, O,
    O, O, O, O, O, O, O, O, O, O, O, O, O, O, O, O, O, O, O, O, O, O, O, O, O, O, O, O, O, O, O, O,
    O, O, O, O, O, O, O, O, O, O, O, O, O, O, O, O, O, O, O, O, O, O, O, O, O, O, O, O, O, O, O, O,
];

// The table of classes, for a caller to hold in a local and lend.
pub fn classes() -> [Class; 256]
    ensures { result ≡ class_table }
{
    CLASSES
}

// The class of a byte.
pub fn class_of(classes: &[Class], b: u8) -> Class
    requires { classes.now ≡ class_table }
    ensures { result ≡ class_of b }
{
    classes[b as usize]
}
