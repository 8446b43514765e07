// The lines of the numbers that changed: section, place, old and new.
ghost use Rattle.std.specs.Prelude.{◌≡◌, [], map};
ghost use Rattle.pages.specs.Added.{Added};
ghost use Rattle.sheet_print.specs.Rows.{rows_of};
ghost use Rattle.cleaning.specs.Changes.{change_of, listed, changes_in, changes as changes_z};
ghost use Rattle.clean_page.specs.Text.{change_text, changes_text};

use pages::number::Number;
use pages::page::Page;
use sheet_form::sheet::Sheet;
use sheet_print::sheet;

// A number that became another, on its line.
fn change<T: Number>(page: &mut Page, section: u64, place: u64, old: T, new: T)
    ensures { Added page.old (change_text (change_of section place (T.value old) (T.value new))) page.new }
{
    page.digits(section);
    page.put(b' ');
    page.digits(place);
    page.put(b' ');
    page.decimal(old);
    page.put(b' ');
    page.decimal(new);
    page.put(b'\n');
}

// A number's line, if it changed.
fn line<T: Number>(page: &mut Page, section: u64, place: u64, old: T, new: T)
    ensures { Added page.old (changes_text (listed section place (T.value old) (T.value new) [])) page.new }
{
    if old.value() != new.value() {
        change(page, section, place, old, new);
    }
}

// The lines of a section, as far as both its rows go.
fn row_lines<T: Number>(page: &mut Page, section: u64, old: &[T], new: &[T])
    ensures { Added page.old (changes_text (changes_in section 1 (map T.value old.now) (map T.value new.now))) page.new }
{
    // By an index: with `zip` and `enumerate` it stayed open that an item's two numbers stand at i in the rows (the goal `loop-i-preserved`).
    for i in 0..old.len().min(new.len()) {
        line(page, section, i as u64 + 1, old[i], new[i]);
    }
}

// A line for each number that the new sheet has changed, in the order of the sheet.
pub fn changes(page: &mut Page, old: &Sheet, new: &Sheet)
    ensures { Added page.old (changes_text (changes_z (rows_of old.now) (rows_of new.now))) page.new }
{
    let before = sheet::settings_words(old.settings);
    let after = sheet::settings_words(new.settings);
    row_lines(page, 1, &before, &after);
    row_lines(page, 2, old.samples.as_slice(), new.samples.as_slice());
    row_lines(page, 3, old.pred_coef.as_slice(), new.pred_coef.as_slice());
    row_lines(page, 4, old.ltp_coef.as_slice(), new.ltp_coef.as_slice());
    row_lines(page, 5, old.ar.as_slice(), new.ar.as_slice());
    row_lines(
        page,
        6,
        old.harm_gains.as_slice(),
        new.harm_gains.as_slice(),
    );
    row_lines(page, 7, old.tilts.as_slice(), new.tilts.as_slice());
    row_lines(page, 8, old.lfs.as_slice(), new.lfs.as_slice());
    row_lines(page, 9, old.gains.as_slice(), new.gains.as_slice());
    row_lines(page, 10, old.lags.as_slice(), new.lags.as_slice());
}
