// A text judged in one pass, read on past its faults.
ghost use Rattle.std.specs.Prelude.{◌≡◌};
ghost use Rattle.older.specs.Items.{items_from, sooner, most_carried, judged_for};
ghost use Rattle.older.specs.Pass.{item_counted, seen_good, seen_letter, seen_operand, sight_told, first_sight};

use crate::{Refusal, Sight, Stands, Way, Why, finding};
use commands::Command;
use lines::Scan;

// Reads a text to its end, and tells whether a ramp was slowed, or its leftmost fault.
pub(crate) fn judge(way: Way, text: &[u8]) -> Result<bool, Refusal>
    ensures { result ≡ judged_for way (items_from way text.now 0) }
{
    let mut sight = first_sight(way);
    let mut at: usize = 0;
    loop {
        match finding::stands_at(way, text, at) {
            Stands::Carries(c, next) => {
                sight = see_good(sight, at + 1, c);
                at = next;
            }
            Stands::Lacks => {
                sight = see_letter(sight, at + 1);
                at += 1;
            }
            Stands::Unfit(c, next) => {
                sight = see_operand(sight, at + 1, c);
                at = next;
            }
            Stands::Ends => {
                return tell(sight);
            }
        }
    }
}

// Nothing is seen yet.
fn first_sight(way: Way) -> Sight
    ensures { result ≡ first_sight way }
{
    Sight {
        scan: Scan {
            depth: 0,
            outer: 0,
            skip: 0,
            first: 0,
        },
        letter: 0,
        operand: 0,
        late: 0,
        left: most_of(way),
        slowed: false,
    }
}

// "14 inward or 25 outward".
fn most_of(way: Way) -> usize
    ensures { result ≡ most_carried way }
{
    match way {
        Way::Inward => 14,
        Way::Outward => 25,
    }
}

// One command more, for the structure and the count.
fn count_item(s: Sight, place: usize, c: Command) -> Sight
    ensures { result ≡ item_counted s place c }
{
    let scan = lines::see(s.scan, place, c);
    if s.left == 0 {
        Sight {
            scan,
            late: lines::left_of(s.late, place),
            ..s
        }
    } else {
        Sight {
            scan,
            left: s.left - 1,
            ..s
        }
    }
}

// A command that carries over.
fn see_good(s: Sight, place: usize, c: Command) -> Sight
    ensures { result ≡ seen_good s place c }
{
    Sight {
        slowed: s.slowed || finding::is_ramp(c),
        ..count_item(s, place, c)
    }
}

// A letter that one of the drives lacks.
fn see_letter(s: Sight, place: usize) -> Sight
    ensures { result ≡ seen_letter s place }
{
    Sight {
        letter: lines::left_of(s.letter, place),
        ..count_item(s, place, Command::Jump(0))
    }
}

// A command with a bad operand.
fn see_operand(s: Sight, place: usize, c: Command) -> Sight
    ensures { result ≡ seen_operand s place c }
{
    Sight {
        operand: lines::left_of(s.operand, place),
        ..count_item(s, place, c)
    }
}

// The leftmost fault at the end of the text; at one place in this order.
fn tell(s: Sight) -> Result<bool, Refusal>
    ensures { result ≡ sight_told s }
{
    let letter = Refusal {
        why: Why::BadLetter,
        place: s.letter,
    };
    let operand = Refusal {
        why: Why::BadOperand,
        place: s.operand,
    };
    let structure = Refusal {
        why: Why::BadStructure,
        place: lines::scan_place(s.scan),
    };
    let late = Refusal {
        why: Why::PastMost,
        place: s.late,
    };
    let first = sooner(letter, sooner(operand, sooner(structure, late)));
    if first.place == 0 {
        Ok(s.slowed)
    } else {
        Err(first)
    }
}

// The first of two, unless the other is further to the left; 0 is no place.
fn sooner(a: Refusal, b: Refusal) -> Refusal
    ensures { result ≡ sooner a b }
{
    if a.place == lines::left_of(a.place, b.place) {
        a
    } else {
        b
    }
}
