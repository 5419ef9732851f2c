//! Fields that are lent, in a vector.
ghost use Rattle.std.specs.Prelude.{◌≡◌, ◌≤◌, length, map, IfOk};
ghost use Rattle.amqp_packed.specs.Lent.{lent};

use amqp_packed::FieldRef;
use amqp_values::NoMemory;
use std::alloc::Global;

/// Fields in a vector of their own.
pub(crate) fn refs_of<'a>(
    alloc: Global,
    fields: &[FieldRef<'a>],
) -> Result<Vec<FieldRef<'a>>, NoMemory>
    requires { length (map lent fields.now) ≤ 16 }
    ensures fields { IfOk result (λ refs. map lent refs.items ≡ map lent fields.now) }
    ensures few { IfOk result (λ refs. length refs.items ≤ 16) }
{
    Ok(Vec::from_slice(alloc, fields)?)
}
