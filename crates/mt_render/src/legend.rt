//! The legend of a graph: its peer groups, each framed in its colour.
ghost use Rattle.std.specs.Prelude.{◌≡◌, ◌++◌, OnOk};
ghost use Rattle.std.specs.List.{flat_map};
ghost use Rattle.mt_render.specs.Legends.{legend_line, legend};

use crate::groups::Nodes;
use crate::palette::Palette;
use mt_info::print::push_number;
use mt_peers::state::GroupId;
use std::alloc::AllocError;

/// Appends the line of a group.
#[tactic(auto, unfolding(crate::specs::Legends::legend_line))]
fn push_legend_line(
    text: &mut Vec<u8>,
    palette: &Palette,
    nodes: &Nodes<'_>,
    group: GroupId,
) -> Result<(), AllocError>
    ensures { OnOk result (text.new.items ≡ text.old.items ++ legend_line palette.now nodes.now group) }
{
    text.extend_from_slice(b"<tr><td border=\"2\" color=\"")?;
    text.extend_from_slice(palette.colour(group))?;
    text.extend_from_slice(b"\">")?;
    push_number(text, group)?;
    text.extend_from_slice(b"</td><td>")?;
    push_number(text, nodes.count(group) as u64)?;
    text.extend_from_slice(b"</td></tr>\n")?;
    Ok(())
}

/// Appends the lines of groups.
fn push_legend_lines(
    text: &mut Vec<u8>,
    palette: &Palette,
    nodes: &Nodes<'_>,
    groups: &[GroupId],
) -> Result<(), AllocError>
    ensures { OnOk result (text.new.items ≡ text.old.items ++ flat_map (legend_line palette.now nodes.now) groups.now) }
{
    'groups: for group in groups {
        push_legend_line(text, palette, nodes, *group)?;
    }
    Ok(())
}

/// Appends the legend of a graph, if it has peer groups.
#[tactic(auto, unfolding(crate::specs::Legends::legend))]
pub(crate) fn push_legend(
    text: &mut Vec<u8>,
    palette: &Palette,
    nodes: &Nodes<'_>,
) -> Result<(), AllocError>
    ensures { OnOk result (text.new.items ≡ text.old.items ++ legend palette.now nodes.now) }
{
    let groups = palette.groups();
    if groups.is_empty() {
        return Ok(());
    }
    text.extend_from_slice(
        b"\"legend\" [shape=plain, label=<<table border=\"0\" cellborder=\"0\">\n<tr><td>peer group</td><td>mounts</td></tr>\n",
    )?;
    push_legend_lines(text, palette, nodes, groups)?;
    text.extend_from_slice(b"</table>>];\n")?;
    Ok(())
}
