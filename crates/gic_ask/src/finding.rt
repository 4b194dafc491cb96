//! The transformer that the words name.
ghost use Rattle.std.specs.Prelude.{◌≡◌, ◌<◌, length, position, bytes_eq, IfOk, IfSome};
ghost use Rattle.gic_ask.specs.Outcome.{transformer_named, transformer_asked};

use crate::fault::InputRefusal;
use gic_case::{Case, Transformer};
use gic_words::Text;

/// Where among transformers the one stands that has this name.
fn position_named(transformers: &[Transformer], name: &[u8]) -> Option<usize>
    ensures place { result ≡ position (λ t. bytes_eq t.name name.now) transformers.now }
    ensures within { IfSome result (λ place. place < length transformers.now) }
{
    transformers
        .iter()
        .position(|unit| unit.name.as_bytes() == name)
}

/// The place of the transformer of a case that has this name.
fn place_named(case: &Case, name: &str) -> Option<u16>
    ensures place { result ≡ transformer_named case.now name.now }
    ensures within { IfSome result (λ place. place < length case.now.transformers) }
{
    let place = position_named(case.transformers(), name.as_bytes())?;
    Some(place as u16)
}

/// The place of the transformer that is named.
pub(crate) fn transformer(name: &Text, case: &Case) -> Result<u16, InputRefusal>
    ensures place { result ≡ transformer_asked case.now name.now }
    ensures within { IfOk result (λ place. place < length case.now.transformers) }
{
    match place_named(case, name.as_str()) {
        Some(place) => Ok(place),
        None => Err(InputRefusal::UnknownTransformer),
    }
}
