//! Lines of a mountinfo, read.
ghost use Rattle.std.specs.Prelude.{◌≡◌, ◌≢◌, Some, None, IfOk, IfErr, MatchOption};
ghost use Rattle.mt_import.specs.Reading.{mount_in, no_fields, with_field, fields_in, is_device, end_in};

use crate::host_mount::HostMount;
use mt_lines::words::{Pieces, Words, number, words};
use mt_skel::fault::Fault;
use std::alloc::Global;

/// The optional fields of a line, those that are known.
#[derive(Clone, Copy)]
struct Fields {
    shared: Option<u64>,
    master: Option<u64>,
    via: Option<u64>,
    unbindable: bool,
}

impl Fields {
    /// These fields with one more, or `None` if it has a name that is known and no number after it. A field that is not
    /// known changes nothing.
    fn with(self, field: &[u8]) -> Option<Fields>
        ensures { result ≡ with_field self field.now }
    {
        if field == b"unbindable".as_slice() {
            return Some(Fields {
                unbindable: true,
                ..self
            });
        }
        if let Some(group) = field.strip_prefix(b"shared:") {
            let shared = Some(number(group)?);
            return Some(Fields { shared, ..self });
        }
        if let Some(group) = field.strip_prefix(b"master:") {
            let master = Some(number(group)?);
            return Some(Fields { master, ..self });
        }
        if let Some(group) = field.strip_prefix(b"propagate_from:") {
            let via = Some(number(group)?);
            return Some(Fields { via, ..self });
        }
        Some(self)
    }
}

/// Takes the optional fields up to the dash, and the dash too. `None` if there is no dash, or a field is not one.
fn read_fields(words: &mut Words<'_>) -> Option<Fields>
    ensures { MatchOption result (fields_in no_fields words.old ≡ None) (λ fields. fields_in no_fields words.old ≡ Some (fields, words.new)) }
{
    let mut fields = Fields {
        shared: None,
        master: None,
        via: None,
        unbindable: false,
    };
    'fields: while let Some(word) = words.next() {
        if word == b"-".as_slice() {
            return Some(fields);
        }
        fields = fields.with(word)?;
    }
    None
}

/// Whether a word is the numbers of a device, major and minor.
fn is_device(word: &[u8]) -> bool
    ensures { result ≡ is_device word.now }
{
    let mut pieces = Pieces::new(b':', word);
    let (Some(major), Some(minor), None) = (pieces.next(), pieces.next(), pieces.next()) else {
        return false;
    };
    number(major).is_some() && number(minor).is_some()
}

/// The type and the source, which come after the dash. `None` unless exactly one word of super options comes after
/// them.
fn read_end<'a>(words: &mut Words<'a>) -> Option<(&'a [u8], &'a [u8])>
    ensures { MatchOption result (end_in words.old ≡ None) (λ (kind, source). end_in words.old ≡ Some (kind.now, source.now)) }
{
    let (Some(kind), Some(source), Some(_), None) = (
        words.next(),
        words.next(),
        words.next(),
        words.next(),
    ) else {
        return None;
    };
    Some((kind, source))
}

/// The row that a line of a mountinfo tells, without its line end.
///
/// Refused as `BadLine` exactly if it is not such a line, and otherwise only as `NoMemory`.
#[tactic(auto, unfolding(crate::specs::Reading::mount_in))]
pub fn read_mount(alloc: Global, line: &[u8]) -> Result<HostMount, Fault>
    ensures row { IfOk result (λ row. mount_in line.now ≡ Some row) }
    ensures refused { IfErr result (λ fault. fault ≢ Fault.NoMemory → (fault ≡ Fault.BadLine) × (mount_in line.now ≡ None)) }
{
    let mut words = words(line);
    let (Some(id), Some(parent), Some(device), Some(root), Some(point), Some(options)) = (
        words.next(),
        words.next(),
        words.next(),
        words.next(),
        words.next(),
        words.next(),
    ) else {
        return Err(Fault::BadLine);
    };
    let (Some(id), Some(parent), Some(fields)) = (
        number(id),
        number(parent),
        read_fields(&mut words),
    ) else {
        return Err(Fault::BadLine);
    };
    let Some((kind, source)) = read_end(&mut words) else {
        return Err(Fault::BadLine);
    };
    if !is_device(device) {
        return Err(Fault::BadLine);
    }
    Ok(HostMount {
        line: Vec::from_slice(alloc, line)?,
        id,
        parent,
        device: Vec::from_slice(alloc, device)?,
        root: Vec::from_slice(alloc, root)?,
        point: Vec::from_slice(alloc, point)?,
        options: Vec::from_slice(alloc, options)?,
        shared: fields.shared,
        master: fields.master,
        via: fields.via,
        unbindable: fields.unbindable,
        kind: Vec::from_slice(alloc, kind)?,
        source: Vec::from_slice(alloc, source)?,
    })
}
