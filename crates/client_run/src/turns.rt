// One request of a client, as it is answered.
use crate::hints::Hint;
use bucket_terms::Reply;
use page_rules::KnownPrefixes;
use request_lines::Asked;

/// A request, and what its answer needs besides the pass.
#[derive(Clone, Copy)]
pub(crate) struct Turn<'a, 'd> {
    pub(crate) known: &'a KnownPrefixes<'d>,
    pub(crate) asked: &'a Asked,
    /// Where the directory may have the name of the request.
    pub(crate) hint: Hint,
    /// The reply of the client's last listing.
    pub(crate) last: Option<&'a Reply>,
}
