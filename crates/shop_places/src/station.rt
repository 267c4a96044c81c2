use shop_edges::{LinkIn, LinkOut};
use std::sync::Wait;

/// Serves links, one after another.
pub trait Station: Send + Drop + 'static {
    /// What its jobs wait by.
    type Handle: Wait + Send + Drop + 'static;

    type In: LinkIn + Send + Drop + 'static;

    type Out: LinkOut + Send + Drop + 'static;

    type Report: Send + Drop + 'static;

    /// What it promises of a service: of the station and the streams before it, of those after it, and of the report.
    ghost serves: { Self → Self.In → Self.Out → Self → Self.In → Self.Out → Self.Report → Type 0 };

    /// Serves a link to its end, and lets it go.
    fn serve(&mut self, source: &mut Self::In, sink: &mut Self::Out) -> Self::Report
        ensures { serves self.old source.old sink.old self.new source.new sink.new result };
}
