//! What a test uses: the built-in types of version 1 or of version 3, with the requests of an empty
//! list.
ghost use Rattle.std.specs.Prelude.{IfOk};
ghost use Rattle.giop_message.specs.MessageState.{IsRequestTableOf};

use giop_sig::{Catalogue, Requests};
use std::alloc::Global;
use std::test::Fail;

/// The built-in types, and the requests of an empty list.
pub fn built_in(alloc: Global) -> Result<(Catalogue, Requests), Fail>
    ensures { IfOk result (λ known. IsRequestTableOf known.0 known.1) }
{
    let catalogue = Catalogue::builtin(alloc)?;
    let requests = Requests::parse(alloc, b"", &catalogue)?;
    Ok((catalogue, requests))
}

/// The built-in types of a signature file of version 3, and the requests of an empty list.
pub fn third(alloc: Global) -> Result<(Catalogue, Requests), Fail>
    ensures { IfOk result (λ known. IsRequestTableOf known.0 known.1) }
{
    let catalogue = Catalogue::parse_types(alloc, b"signatures 3;")?;
    let requests = Requests::parse(alloc, b"", &catalogue)?;
    Ok((catalogue, requests))
}
