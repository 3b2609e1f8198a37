//! The causes in their order.

ghost use Rattle.std.specs.Prelude.{◌≡◌, ◌<◌, ◌^◌, length};
ghost use Rattle.std.specs.Option.{option_or};
ghost use Rattle.pair_causes.specs.Judged.{IsJudged};
ghost use Rattle.pair_causes.specs.Sentences.{first_number, is_settle};

use crate::cause::{PairCause, PairFault};
use crate::heads::{have_one_head, offset_of};
use crate::link::{Linked, links_of};
use crate::records::{first_of_all, first_settle, have_long_name};
use mission_items::Mission;
use pair_form::PairForm;
use std::alloc::Global;

// The number of the first log's first record that ends a section, else that of the second log.
fn first_section(first: &Mission, second: &Mission) -> Option<u32>
    requires first_few { length first.now.items < 2 ^ 32 }
    requires second_few { length second.now.items < 2 ^ 32 }
    ensures { result ≡ option_or (first_number is_settle first.now.items) (first_number is_settle second.now.items) }
{
    match first_settle(first.items.as_slice()) {
        Some(at) => Some(at),
        None => first_settle(second.items.as_slice()),
    }
}

/// What each link says, where no cause from Heads to LongName holds of two missions and the form that their logs stand in. Otherwise the
/// lowest cause, and where it holds. What the form says of the bytes of both logs is not looked at. Memory is taken for the names of all
/// signals and for the links.
pub fn judge(
    alloc: Global,
    first: &Mission,
    second: &Mission,
    form: &PairForm,
) -> Result<Vec<Linked>, PairFault>
    requires first_few { length first.now.items < 2 ^ 32 }
    requires second_few { length second.now.items < 2 ^ 32 }
    requires few_links { length form.now.links < 2 ^ 32 }
    ensures { IsJudged first.now second.now form.now result }
{
    if !have_one_head(first, second) {
        return Err(PairFault::Bad {
            at: 0,
            cause: PairCause::Heads,
        });
    }
    if let Some(at) = first_section(first, second) {
        return Err(PairFault::Bad {
            at,
            cause: PairCause::Sections,
        });
    }
    if let Some(at) = first_of_all(second.items.as_slice()) {
        return Err(PairFault::Bad {
            at,
            cause: PairCause::SecondMap,
        });
    }
    let Some(offset) = offset_of(form.offset) else {
        return Err(PairFault::Bad {
            at: 0,
            cause: PairCause::Offset,
        });
    };
    let links = links_of(alloc, first, second, offset, form.links.as_slice())?;
    if have_long_name(first, second) {
        return Err(PairFault::Bad {
            at: 0,
            cause: PairCause::LongName,
        });
    }
    Ok(links)
}
