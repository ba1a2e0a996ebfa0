//! The fields of a message by their names.
ghost use Rattle.std.specs.Prelude.{◌≡◌, IfOk};
ghost use Rattle.mail_head.specs.Fields.{field_texts_of};
ghost use Rattle.sieve_exec.specs.Indexes.{IsIndex};

use crate::raw_values::RawValues;
use mail_head::Field;
use octets::{Octets, lowered};
use std::alloc::{AllocError, Global};
use std::collections::BTreeMap;

/// The raw values of the fields with each name, by the name in lower case.
///
/// For n fields n log n comparisons of names; memory for a slice for each field and a copy of each name.
pub(crate) fn index_of<'a>(
    alloc: Global,
    fields: &[Field<'a>],
) -> Result<BTreeMap<Octets, RawValues<'a>>, AllocError>
    ensures { IfOk result (λ index. IsIndex (field_texts_of fields.now) index) }
{
    let mut index = BTreeMap::new(alloc);
    for field in fields {
        let name = lowered(alloc, field.name)?;
        let raws = index.entry(name)?.or_insert(RawValues::new(alloc));
        raws.push(field.raw)?;
    }
    Ok(index)
}
