//! The colours of the peer groups of a graph.
ghost use Rattle.std.specs.Prelude.{◌≡◌, ◌++◌, map, slice_index_or, nat_eq, codes, OnOk, IfOk, IsTrue};
ghost use Rattle.std.specs.List.{position_or_len};
ghost use Rattle.mt_skel.specs.Keyed.{rises};
ghost use Rattle.mt_render.specs.Groups.{named_groups};
ghost use Rattle.mt_render.specs.Palettes.{colour, mark};

use crate::groups::Nodes;
use mt_info::print::push_number;
use mt_peers::state::GroupId;
use mt_propagate::sorted::in_order;
use std::alloc::{AllocError, Global};
use std::marker::Model;

/// How many groups have a colour of their own.
const OWN_COLOURS: usize = 24;

/// The colours of the first groups, in their order.
const COLOURS: [&[u8]; 24] = [
    b"blue3",
    b"green4",
    b"darkorange2",
    b"purple3",
    b"turquoise4",
    b"deeppink2",
    b"goldenrod3",
    b"red3",
    b"dodgerblue2",
    b"saddlebrown",
    b"springgreen3",
    b"magenta3",
    b"olivedrab",
    b"tomato",
    b"navy",
    b"maroon",
    b"cadetblue4",
    b"orchid4",
    b"chocolate3",
    b"darkslategray",
    b"mediumpurple1",
    b"palevioletred3",
    b"khaki4",
    b"skyblue3",
];

/// The colour of all further groups.
const NO_COLOUR: &[u8] = b"gray50";

/// The colour at a place among these.
fn colour_among(colours: &[&'static [u8]], at: usize) -> &'static [u8]
    ensures { result.now ≡ slice_index_or (map (λ colour. colour.now) colours.now) at (codes "gray50") }
{
    match colours.get(at) {
        Some(colour) => colour,
        None => NO_COLOUR,
    }
}

/// How many of these groups, by rising number, stand in front of a group, and how many there are where it is none of them.
fn place_among(groups: &[GroupId], group: GroupId) -> usize
    requires { IsTrue (rises (λ k. k) groups.now) }
    ensures { result ≡ position_or_len (nat_eq group) groups.now }
{
    match groups.binary_search_by_key(&group, |other| *other) {
        Ok(at) => at,
        Err(_) => groups.len(),
    }
}

/// The peer groups of a graph by rising number, which have the colours in their order.
#[derive(Drop)]
pub(crate) struct Palette {
    groups: Vec<GroupId>,
}

impl Model for Palette {
    ghost use Rattle.std.specs.Prelude.{ℕ, List, IsTrue};
    ghost use Rattle.mt_skel.specs.Keyed.{rises};

    ghost Value = { List ℕ };

    ghost view = { λ p. p.groups.items };

    ghost invariant = { λ p. IsTrue (rises (λ k. k) p.groups.items) };
}

impl Palette {
    /// The groups of the mounts of a graph.
    pub(crate) fn of(alloc: Global, nodes: &Nodes<'_>) -> Result<Palette, AllocError>
        ensures { IfOk result (λ palette. palette ≡ named_groups nodes.now) }
    {
        let named = nodes.groups(alloc)?;
        let groups = in_order(named);
        Ok(Palette { groups })
    }

    /// The groups, by rising number.
    pub(crate) fn groups(&self) -> &[GroupId]
        ensures { result.now ≡ self.now }
    {
        &self.groups
    }

    /// How many groups stand in front of a group, and how many there are where it is none of them.
    fn place(&self, group: GroupId) -> usize
        ensures { result ≡ position_or_len (nat_eq group) self.now }
    {
        place_among(&self.groups, group)
    }

    /// The colour of a group.
    #[tactic(auto, unfolding(crate::specs::Palettes::colours))]
    pub(crate) fn colour(&self, group: GroupId) -> &'static [u8]
        ensures { result.now ≡ colour self.now group }
    {
        colour_among(&COLOURS, self.place(group))
    }

    /// Appends the colour of the edges of a group, and its number as their label where it has no colour of its own.
    pub(crate) fn push_mark(&self, text: &mut Vec<u8>, group: GroupId) -> Result<(), AllocError>
        ensures { OnOk result (text.new.items ≡ text.old.items ++ mark self.now group) }
    {
        text.extend_from_slice(self.colour(group))?;
        if self.place(group) >= OWN_COLOURS {
            text.extend_from_slice(b", label=")?;
            push_number(text, group)?;
        }
        Ok(())
    }
}
