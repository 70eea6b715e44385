//! Whether attributes and optional fields are the same.
ghost use Rattle.std.specs.Prelude.{◌≡◌};
ghost use Rattle.mt_info.specs.SameRow.{atime_eq, attrs_eq, bool_eq, number_eq, tags_eq};

use crate::row::Row;
use mt_mounts::mount::{Atime, Attrs};
use mt_peers::state::GroupId;

/// Whether two mounts have the same attributes.
pub(crate) fn same_attrs(left: Attrs, right: Attrs) -> bool
    ensures { result ≡ attrs_eq left right }
{
    same_flag(left.ro, right.ro)
        && same_flag(left.nosuid, right.nosuid)
        && same_flag(left.nodev, right.nodev)
        && same_flag(left.noexec, right.noexec)
        && same_flag(left.nosymfollow, right.nosymfollow)
        && same_flag(left.nodiratime, right.nodiratime)
        && same_atime(left.atime, right.atime)
}

/// Whether the optional fields of two rows are equal.
pub(crate) fn same_tags(left: &Row, right: &Row) -> bool
    ensures { result ≡ tags_eq left.now right.now }
{
    same_group(left.shared, right.shared)
        && same_group(left.master, right.master)
        && same_group(left.via, right.via)
        && same_flag(left.unbindable, right.unbindable)
}

/// Whether two flags are equal.
pub(crate) fn same_flag(left: bool, right: bool) -> bool
    ensures { result ≡ bool_eq left right }
{
    left == right
}

/// Whether two kinds of access times are equal.
fn same_atime(left: Atime, right: Atime) -> bool
    ensures { result ≡ atime_eq left right }
{
    left == right
}

/// Whether two tags name the same group, or both none.
pub(crate) fn same_group(left: Option<GroupId>, right: Option<GroupId>) -> bool
    ensures { result ≡ number_eq left right }
{
    left == right
}
