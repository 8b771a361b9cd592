// The next field with a key, from a place of a message on; other fields are passed over.
ghost use Rattle.std.specs.Prelude.{◌≡◌};
ghost use Rattle.reader.specs.Finding.{first_of};

use crate::cause::Cause;
use messages::field::{FieldAt, field_at};
use messages::key::Kind;

pub(crate) fn first_of(
    kind: Kind,
    key: u64,
    src: &[u8],
    start: usize,
) -> Result<Option<FieldAt>, Cause>
    ensures { result ≡ first_of kind key start src.now }
{
    let mut at = start;
    // A turn goes on where its field ends, so that no `for` says it plainer.
    while at < src.len() {
        let Some(f) = field_at(kind, src, at) else {
            return Err(Cause::Broken);
        };
        if f.key == key {
            return Ok(Some(f));
        }
        at = f.end;
    }
    Ok(None)
}
