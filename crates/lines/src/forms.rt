// What a line means, by its first letter, and where it may stand.
ghost use Rattle.std.specs.Prelude.{◌≡◌, List, ℕ};
ghost use Rattle.text.specs.Keys.{key_of};
ghost use Rattle.syntax.specs.Forms.{form_of_byte, form_of, section_after};
ghost use Rattle.lines.specs.Read.{form_meant, section_meant, section_numbered, section_answer};

use crate::{LineForm, Section};

// What a byte stands for as the first letter of a line, over all byte values.
fn form_of_byte(b: u8) -> LineForm
    ensures { form_meant result ≡ form_of_byte b }
{
    match b {
        b'K' => LineForm::Symbol,
        b'R' => LineForm::Rule,
        b'J' => LineForm::Kept,
        b'H' => LineForm::Head,
        b'B' => LineForm::Body,
        b'E' => LineForm::Equation,
        b'G' => LineForm::Goal,
        b'A'..=b'Z' => LineForm::Nothing,
        b'a'..=b'z' => LineForm::Nothing,
        _ => LineForm::Nothing,
    }
}

// The form of a line by the key of its first field: a letter's byte is 63 more than its key.
pub fn form_of(key: u64) -> LineForm
    ensures { (f : List ℕ) → key ≡ key_of f → form_meant result ≡ form_of f }
{
    if key < 28 {
        return form_of_byte(63 + key as u8);
    }
    LineForm::Nothing
}

impl Section {
    // The section of a number: 0 among K lines, 1 behind R or J, 2 behind H, 3 behind B, and from 4 on behind E.
    #[tactic(auto, unfolding(crate::specs::Read::section_meant, crate::specs::Read::section_numbered))]
    pub fn numbered(number: u8) -> Section
        ensures { section_meant result ≡ section_numbered number }
    {
        match number {
            0 => Section::Symbols,
            1 => Section::Kept,
            2 => Section::Heads,
            3 => Section::Body,
            _ => Section::Equations,
        }
    }

    // The section behind a line of a form, if it may stand there.
    #[tactic(auto, unfolding(syntax::specs::Forms::section_after, crate::specs::Read::form_meant, crate::specs::Read::section_meant))]
    pub fn after(self, form: LineForm) -> Option<Section>
        ensures { section_answer result ≡ section_after (form_meant form) (section_meant self) }
    {
        match (form, self) {
            (LineForm::Symbol, Section::Symbols) => Some(Section::Symbols),
            (LineForm::Rule, _) => Some(Section::Kept),
            (LineForm::Kept, Section::Kept) => Some(Section::Kept),
            (LineForm::Head, Section::Kept | Section::Heads) => Some(Section::Heads),
            (LineForm::Body, Section::Kept | Section::Heads | Section::Body) => Some(Section::Body),
            (LineForm::Equation, Section::Symbols) => None,
            (LineForm::Equation, _) => Some(Section::Equations),
            _ => None,
        }
    }
}

// The same for a caller that has the number of the section before the line.
pub fn section_after(form: LineForm, section: u8) -> Option<Section>
    ensures { section_answer result ≡ section_after (form_meant form) (section_numbered section) }
{
    Section::numbered(section).after(form)
}
