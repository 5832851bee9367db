// The pages of a listing, written into a lent output; where they might not fit, counted first by the same functions.
#![tactic(auto)]

mod page;
mod rows;

ghost use Rattle.std.specs.Prelude.{◌*◌, ◌≤◌, length};
ghost use Rattle.listing.specs.Writing.{Countable, Writes, ListedAs};
ghost use Rattle.pages.specs.Pages.{pages_of, page_size, max_pages};

use listing::list_by;
use listing::writing::behind;
use page::put_page;
use text::fields::word_at;

// A row of a listing: where its bytes end, where the next row starts, and whether that one continues a line.
#[derive(Drop)]
pub struct Row {
    pub end: usize,
    pub next: usize,
    pub inside: bool,
}

// The end of what was put into an output, where the next row of a listing starts, and whether it continues a line.
#[derive(Drop)]
pub struct Place {
    pub end: usize,
    pub at: usize,
    pub inside: bool,
}

// Room for the pages of every listing of a check.
pub const AMPLE_PAGES: usize = 41820;

// The pages of a listing, into the front of an output; answers how many bytes.
fn put_pages(out: &mut [u8], listing: &[u8]) -> usize
    requires { Countable 0 (pages_of listing.now) }
    ensures { Writes (pages_of listing.now) 0 out.old out.new result }
{
    let first = word_at(listing, 0);
    let mut end = 0;
    let mut at = 0;
    let mut inside = false;
    let mut number = 1;
    while at < listing.len() {
        let from = behind(end, out.len());
        let place = put_page(&mut out[from..], first, number, listing, at, inside);
        end += place.end;
        at = place.at;
        inside = place.inside;
        number += 1;
    }
    end
}

// The pages of a listing: written at once where those of every listing of a check fit, and elsewhere counted first.
pub fn list_pages(out: &mut [u8], listing: &[u8]) -> Option<usize>
    requires { length (pages_of listing.now) ≤ max_pages * page_size }
    ensures { ListedAs (pages_of listing.now) out.old out.new result }
{
    let fits = AMPLE_PAGES <= out.len();
    list_by(out, fits, |rest| put_pages(rest, listing))
}
