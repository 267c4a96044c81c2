ghost use Rattle.std.specs.Prelude.{◌≡◌, IfOk};
ghost use Rattle.shop_cache.specs.Keys.{key_asked};

use shop_model::{Request, SearchKind, Subject};
use shop_text::{Memory, Text};
use std::alloc::Global;

/// Which list a request asks for.
#[derive(Drop, PartialEq, Eq, Hash)]
pub enum ListKey {
    /// The newest items of a subject.
    New(Subject),
    /// The best sold items of a subject.
    Best(Subject),
    /// What a search for a text finds.
    Found(SearchKind, Text),
}

impl ListKey {
    /// The list that the request asks for; only the text of a search takes memory.
    pub fn asked(alloc: Global, request: &Request) -> Result<Option<ListKey>, Memory>
        ensures { IfOk result (λ key. key ≡ key_asked request.now) }
    {
        match request {
            Request::NewProducts(asked) => Ok(Some(ListKey::New(asked.subject))),
            Request::BestSellers(asked) => Ok(Some(ListKey::Best(asked.subject))),
            Request::SearchResults(asked) => {
                let text = Text::copy(alloc, asked.text.bytes())?;
                Ok(Some(ListKey::Found(asked.kind, text)))
            }
            _ => Ok(None),
        }
    }
}
