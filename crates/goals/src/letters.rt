// The variables of a goal: each has the number of its letter, by first appearance.
ghost use Rattle.std.specs.Prelude.{◌≡◌, ℕ, ◌≤◌, ◌<◌, eqb, length, get_or};
ghost use Rattle.text.specs.Lists.{index_from};
ghost use Rattle.goals.specs.ReadGoal.{LettersFit, LetterIn, RowIn};

use crate::{LetterRead, RowRead};

// The index of a letter; behind the last where none is it.
fn find_letter(letters: &[u8], b: u8) -> usize
    ensures { (result ≡ index_from (eqb b) 0 letters.now) × (result ≤ length letters.now) }
{
    for (i, letter) in letters.iter().enumerate() {
        if b == *letter {
            return i;
        }
    }
    letters.len()
}

// The cell of a term whose variable, if it is one, is a letter: 256 more than the letter's number by first appearance.
fn number_letter(cell: u16, letters: &mut [u8], count: usize) -> LetterRead
    requires { (cell < 282) × (length letters.old ≡ 26) × LettersFit letters.old count }
    ensures { LetterIn cell count letters.old letters.new result }
{
    if cell < 256 {
        return LetterRead { cell, count };
    }
    let b = (cell - 191) as u8;
    let k = find_letter(&letters[..count], b);
    if k < count {
        return LetterRead {
            cell: 256 + k as u16,
            count,
        };
    }
    letters[count] = b;
    LetterRead {
        cell: 256 + count as u16,
        count: count + 1,
    }
}

// The four terms of a constraint in order.
pub fn number_letters(row: [u16; 5], letters: &mut [u8], count: usize) -> RowRead
    requires { ((i : ℕ) → get_or row i 0 < 282) × (length letters.old ≡ 26) × LettersFit letters.old count
        × (length row ≡ 5) }
    ensures { RowIn row count letters.old letters.new result }
{
    let a = number_letter(row[1], letters, count);
    let b = number_letter(row[2], letters, a.count);
    let c = number_letter(row[3], letters, b.count);
    let d = number_letter(row[4], letters, c.count);
    RowRead {
        count: d.count,
        cells: [row[0], a.cell, b.cell, c.cell, d.cell],
    }
}
