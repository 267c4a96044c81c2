use shop_text::{Listed, Text};

/// An input of a form.
#[derive(Drop)]
pub struct Field {
    pub name: Text,
    pub value: Text,
}

/// A part of a page. Its texts are not escaped yet.
#[derive(Drop)]
pub enum Block {
    Heading(Text),
    Para(Text),
    Link { target: Text, label: Text },
    Picture { target: Text, label: Text },
    /// Rows of cells.
    Table(Listed<Listed<Text>>),
    Form { target: Text, fields: Listed<Field> },
}

/// What answers a request: a status of HTTP, and a page of HTML.
#[derive(Drop)]
pub struct Page {
    pub status: u16,
    pub title: Text,
    pub blocks: Listed<Block>,
}
