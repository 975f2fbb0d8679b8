// Requests, and what a read of one answers.
use http_reply::Refusal;
use sticky_routes::Cookies;
use wiki_titles::{Text, Title, Token};

/// What a request asks for.
#[derive(Debug, Drop)]
pub enum Call {
    /// A page: `GET` or `HEAD` of `/wiki/` and the title.
    Page(Title),
    /// An edit: `POST` of `/edit` with a form.
    Edit {
        /// The page that is edited.
        title: Title,
        /// The revision that the edit was made from; 0 is that of no page.
        base: u64,
        /// Names the edit: a client's edit with the same token is saved once.
        token: Token,
        /// The page's whole new text.
        text: Text,
    },
    /// 1 to 16 pages: `GET` or `HEAD` of `/batch` with the titles in its query.
    Batch(Vec<Title>),
}

/// A request that was read whole.
#[derive(Debug, Drop)]
pub struct Request {
    /// Whether its method is `GET`.
    pub get: bool,
    /// Whether its method is `HEAD`, so that the response has no body.
    pub head: bool,
    /// Whether it asks to close the connection, as every request of HTTP/1.0 does.
    pub close: bool,
    /// The value of `Host`; the empty text if there is none.
    pub host: String,
    /// The first value of `User-Agent`; the empty text if there is none.
    pub agent: String,
    /// What the cookies of all fields `Cookie` say.
    pub cookies: Cookies,
    /// What it asks for.
    pub call: Call,
}

/// What a read of one request answers.
#[derive(Debug, Drop)]
pub enum Incoming {
    /// A request; its bytes are gone from what is kept.
    Ready(Request),
    /// The input begins with no request that the wiki answers.
    Refused(Refusal),
    /// The input ended between two requests.
    Closed,
    /// The input ended inside a request.
    Cut,
    /// A read failed: the source's count of faults rose.
    ReadFault,
    /// Out of memory.
    Memory,
}
