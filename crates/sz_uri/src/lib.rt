//! What a URI of `http` or `https` gives (RFC 3986, RFC 9110 section 4.2): the host and port to connect to, and
//! the path and query to ask for. A URI is read as the URL Standard reads it, and any other text is refused.
#![tactic(auto)]

mod laws;
mod uri;

pub use laws::uris_have_one_reading;
pub use uri::Uri;
