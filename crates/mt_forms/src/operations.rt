//! What a line asks for, by its program and what its words give.
ghost use Rattle.std.specs.Prelude.{◌≡◌};
ghost use Rattle.mt_forms.specs.Operations.{path_slip, two_slip, unless_slip, in_front, then_place, moved_operation, change_operation, remount_operation, alone_operation, new_operation, all_places, mount_operation, umount_at, umount_operation, spread, unshare_operation, pivot_operation, operation_by};

use crate::attribute::Said;
use crate::command::Tool;
use crate::given::{Given, Places};
use crate::operation::{Operation, Propagation, PropagationKind, Reach};
use crate::slip::Slip;
use crate::table::Change;
use crate::word::{Word, has_dots, is_rooted};

/// Why a word is no path from the root, if it is none.
fn path_slip<'a>(word: &Word<'a>) -> Option<Slip<'a>>
    ensures { result ≡ path_slip word.entry.now }
{
    let path = word.bytes();
    if !is_rooted(path) {
        return Some(Slip::NotRooted {
            word: Word::new(path),
        });
    }
    if has_dots(path) {
        return Some(Slip::Dots {
            word: Word::new(path),
        });
    }
    None
}

/// Why one of two words is no path from the root, the first of those that are none.
fn two_slip<'a>(first: &Word<'a>, second: &Word<'a>) -> Option<Slip<'a>>
    ensures { result ≡ two_slip first.entry.now second.entry.now }
{
    match path_slip(first) {
        Some(slip) => Some(slip),
        None => path_slip(second),
    }
}

/// A form, unless something is wrong.
fn unless_slip<'a>(
    slip: Option<Slip<'a>>,
    operation: Operation<'a>,
) -> Result<Operation<'a>, Slip<'a>>
    ensures { result ≡ unless_slip slip.entry operation.entry }
{
    match slip {
        Some(slip) => Err(slip),
        None => Ok(operation),
    }
}

/// The same word, if there is one.
fn again<'a>(word: &Option<Word<'a>>) -> Option<Word<'a>>
    ensures { result ≡ word.entry.now }
{
    match word {
        Some(word) => Some(Word::new(word.bytes())),
        None => None,
    }
}

/// These words, and one before them, if there is one.
fn in_front<'a>(word: Option<Word<'a>>, places: Places<'a>) -> Places<'a>
    ensures { result ≡ in_front word.entry places.entry }
{
    let Some(word) = word else {
        return places;
    };
    match places {
        Places::None => Places::One(word),
        Places::One(first) => Places::Two(word, first),
        Places::Two(_first, _second) => Places::Many,
        Places::Many => Places::Many,
    }
}

/// These words, and one after them, if there is one.
fn then_place<'a>(places: Places<'a>, word: Option<Word<'a>>) -> Places<'a>
    ensures { result ≡ then_place places.entry word.entry }
{
    match word {
        Some(word) => places.with(word),
        None => places,
    }
}

/// What a bind, rbind or move of two paths asks for.
fn moved_operation<'a>(
    change: Change,
    said: Said,
    propagation: Option<Propagation>,
    from: Word<'a>,
    to: Word<'a>,
) -> Operation<'a>
    ensures { result ≡ moved_operation change said propagation from.entry to.entry }
{
    match change {
        Change::Bind => Operation::Bind {
            from,
            to,
            recursive: false,
            said,
            propagation,
        },
        Change::Rbind => Operation::Bind {
            from,
            to,
            recursive: true,
            said,
            propagation,
        },
        Change::Move => Operation::Move {
            from,
            to,
            propagation,
        },
    }
}

/// What a bind, rbind or move asks for.
fn change_operation<'a>(
    change: Change,
    said: Said,
    propagation: Option<Propagation>,
    places: Places<'a>,
) -> Result<Operation<'a>, Slip<'a>>
    ensures { result ≡ change_operation change said propagation places.entry }
{
    match places {
        Places::None => Err(Slip::NoTarget { tool: Tool::Mount }),
        Places::One(_word) => Err(Slip::OnePath { tool: Tool::Mount }),
        Places::Two(from, to) => {
            let slip = two_slip(&from, &to);
            unless_slip(slip, moved_operation(change, said, propagation, from, to))
        }
        Places::Many => Err(Slip::Many { tool: Tool::Mount }),
    }
}

/// What a remount asks for, of which the target is the last word.
fn remount_operation<'a>(
    change: Option<Change>,
    said: Said,
    propagation: Option<Propagation>,
    places: Places<'a>,
) -> Result<Operation<'a>, Slip<'a>>
    ensures { result ≡ remount_operation change said propagation places.entry }
{
    match change {
        None | Some(Change::Move) => return Err(Slip::WholeRemount),
        Some(Change::Bind) | Some(Change::Rbind) => {}
    }
    let to = match places {
        Places::None => {
            return Err(Slip::NoTarget { tool: Tool::Mount });
        }
        Places::One(to) => to,
        Places::Two(_source, to) => to,
        Places::Many => {
            return Err(Slip::Many { tool: Tool::Mount });
        }
    };
    let slip = path_slip(&to);
    unless_slip(
        slip,
        Operation::Remount {
            to,
            said,
            propagation,
        },
    )
}

/// What a line of mount(8) with one word asks for: another propagation, or what stands in fstab(5).
fn alone_operation<'a>(
    is_unquoted: bool,
    propagation: Option<Propagation>,
    to: Word<'a>,
) -> Result<Operation<'a>, Slip<'a>>
    ensures { result ≡ alone_operation is_unquoted propagation to.entry }
{
    let Some(propagation) = propagation else {
        return Err(Slip::Alone { word: to });
    };
    if !is_unquoted {
        return Err(Slip::Alone { word: to });
    }
    let slip = path_slip(&to);
    unless_slip(slip, Operation::Propagation { to, propagation })
}

/// What a line of mount(8) without bind, rbind, move and remount asks for.
fn new_operation<'a>(
    kind: Option<Word<'a>>,
    has_list: bool,
    said: Said,
    propagation: Option<Propagation>,
    places: Places<'a>,
) -> Result<Operation<'a>, Slip<'a>>
    ensures { result ≡ new_operation kind.entry has_list said propagation places.entry }
{
    match places {
        Places::None => Err(Slip::NoTarget { tool: Tool::Mount }),
        Places::One(to) => alone_operation(!has_list && kind.is_none(), propagation, to),
        Places::Two(source, to) => {
            let slip = path_slip(&to);
            unless_slip(
                slip,
                Operation::Mount {
                    source,
                    kind,
                    to,
                    said,
                    propagation,
                },
            )
        }
        Places::Many => Err(Slip::Many { tool: Tool::Mount }),
    }
}

/// All words of a line of mount(8) that are no options, and those that stand for one.
fn all_places<'a>(given: &Given<'a>) -> Places<'a>
    ensures { result ≡ all_places given.entry.now }
{
    let places = in_front(again(&given.source), given.places.again());
    then_place(places, again(&given.target))
}

/// What a line of mount(8) asks for.
fn mount_operation<'a>(given: &Given<'a>) -> Result<Operation<'a>, Slip<'a>>
    ensures { result ≡ mount_operation given.entry.now }
{
    let said = given.said;
    let propagation = given.propagation;
    let places = all_places(given);
    if given.remounts {
        return remount_operation(given.change, said, propagation, places);
    }
    match given.change {
        Some(change) => change_operation(change, said, propagation, places),
        None => new_operation(
            again(&given.kind),
            given.has_list,
            said,
            propagation,
            places,
        ),
    }
}

/// What a line of umount(8) with these words asks for.
fn umount_at<'a>(lazy: bool, reach: Reach, places: Places<'a>) -> Result<Operation<'a>, Slip<'a>>
    ensures { result ≡ umount_at lazy reach places.entry }
{
    match places {
        Places::None => Err(Slip::NoTarget { tool: Tool::Umount }),
        Places::One(target) => {
            if has_dots(target.bytes()) {
                return Err(Slip::Dots { word: target });
            }
            Ok(Operation::Umount {
                target,
                lazy,
                reach,
            })
        }
        Places::Two(_first, _second) => Err(Slip::Many { tool: Tool::Umount }),
        Places::Many => Err(Slip::Many { tool: Tool::Umount }),
    }
}

/// What a line of umount(8) asks for.
fn umount_operation<'a>(given: &Given<'a>) -> Result<Operation<'a>, Slip<'a>>
    ensures { result ≡ umount_operation given.entry.now }
{
    umount_at(given.is_lazy, given.reach, given.places.again())
}

/// What the mounts of a new namespace are made.
fn spread(is_unchanged: bool, propagation: Option<Propagation>) -> Option<Propagation>
    ensures { result ≡ spread is_unchanged propagation }
{
    if is_unchanged {
        return None;
    }
    match propagation {
        Some(propagation) => Some(propagation),
        None => Some(Propagation {
            kind: PropagationKind::Private,
            recursive: true,
        }),
    }
}

/// What a line of unshare(1) asks for. A command after the options has no effect on mounts here.
fn unshare_operation<'a>(given: &Given<'a>) -> Result<Operation<'a>, Slip<'a>>
    ensures { result ≡ unshare_operation given.entry.now }
{
    if !given.has_mounts {
        return Err(Slip::NoMounts {
            tool: Tool::Unshare,
        });
    }
    Ok(Operation::CopySpace {
        less: given.is_less,
        propagation: spread(given.is_unchanged, given.propagation),
    })
}

/// What a line of pivot_root(8) asks for.
fn pivot_operation<'a>(given: &Given<'a>) -> Result<Operation<'a>, Slip<'a>>
    ensures { result ≡ pivot_operation given.entry.now }
{
    match given.places.again() {
        Places::None => Err(Slip::NoTarget {
            tool: Tool::PivotRoot,
        }),
        Places::One(_word) => Err(Slip::OnePath {
            tool: Tool::PivotRoot,
        }),
        Places::Two(new, old) => {
            let slip = two_slip(&new, &old);
            unless_slip(slip, Operation::Pivot { new, old })
        }
        Places::Many => Err(Slip::Many {
            tool: Tool::PivotRoot,
        }),
    }
}

/// What a line of a program asks for. One of nsenter(1) is of another program, which comes after it.
pub(crate) fn operation_by<'a>(tool: Tool, given: &Given<'a>) -> Result<Operation<'a>, Slip<'a>>
    ensures { result ≡ operation_by tool given.entry.now }
{
    match tool {
        Tool::Mount => mount_operation(given),
        Tool::Umount => umount_operation(given),
        Tool::Unshare => unshare_operation(given),
        Tool::Nsenter => Err(Slip::NoLine),
        Tool::PivotRoot => pivot_operation(given),
    }
}
