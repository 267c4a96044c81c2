ghost use Rattle.std.specs.Prelude.{◌≡◌};
ghost use Rattle.shop_model.specs.asked.Parameters as spec;

/// The parameters of requests.
#[derive(Clone, Copy, Debug, PartialEq, Eq)]
pub enum Parameter {
    /// The customer's id.
    C,
    /// The cart's id.
    Cart,
    Item,
    /// All those whose names begin with `qty_`.
    Qty,
    Subject,
    Kind,
    Text,
    /// The name of a customer who logs in.
    User,
    /// Its password.
    Pass,
    FirstName,
    LastName,
    Street1,
    Street2,
    City,
    State,
    Zip,
    Country,
    Phone,
    Email,
    /// The type of a payment card.
    Card,
    /// Its number.
    Number,
    /// Its holder's name.
    Name,
    /// The month in which it expires.
    Expiry,
    /// How an order is shipped.
    Ship,
    /// What an item costs.
    Cost,
    /// The link to its large picture.
    Image,
    /// The link to its small picture.
    Thumb,
    /// The title of an item that is added.
    Title,
    /// The id of its author.
    Author,
    Publisher,
    /// What it is about.
    About,
    /// Its suggested retail price.
    Srp,
    /// The units of it in stock.
    Stock,
    Pages,
    /// How it is bound.
    Backing,
}

impl Parameter {
    pub fn name(&self) -> &'static [u8]
        ensures { result.now ≡ spec.parameter_name self.now }
    {
        match self {
            Parameter::C => b"c",
            Parameter::Cart => b"cart",
            Parameter::Item => b"item",
            Parameter::Qty => b"qty",
            Parameter::Subject => b"subject",
            Parameter::Kind => b"kind",
            Parameter::Text => b"text",
            Parameter::User => b"user",
            Parameter::Pass => b"pass",
            Parameter::FirstName => b"fn",
            Parameter::LastName => b"ln",
            Parameter::Street1 => b"street1",
            Parameter::Street2 => b"street2",
            Parameter::City => b"city",
            Parameter::State => b"state",
            Parameter::Zip => b"zip",
            Parameter::Country => b"country",
            Parameter::Phone => b"phone",
            Parameter::Email => b"email",
            Parameter::Card => b"card",
            Parameter::Number => b"number",
            Parameter::Name => b"name",
            Parameter::Expiry => b"expiry",
            Parameter::Ship => b"ship",
            Parameter::Cost => b"cost",
            Parameter::Image => b"image",
            Parameter::Thumb => b"thumb",
            Parameter::Title => b"title",
            Parameter::Author => b"author",
            Parameter::Publisher => b"publisher",
            Parameter::About => b"about",
            Parameter::Srp => b"srp",
            Parameter::Stock => b"stock",
            Parameter::Pages => b"pages",
            Parameter::Backing => b"backing",
        }
    }

    /// The sentence that refuses it.
    pub fn refusal(&self) -> &'static [u8]
        ensures { result.now ≡ spec.bad_parameter self.now }
    {
        match self {
            Parameter::C => b"Bad parameter c.",
            Parameter::Cart => b"Bad parameter cart.",
            Parameter::Item => b"Bad parameter item.",
            Parameter::Qty => b"Bad parameter qty.",
            Parameter::Subject => b"Bad parameter subject.",
            Parameter::Kind => b"Bad parameter kind.",
            Parameter::Text => b"Bad parameter text.",
            Parameter::User => b"Bad parameter user.",
            Parameter::Pass => b"Bad parameter pass.",
            Parameter::FirstName => b"Bad parameter fn.",
            Parameter::LastName => b"Bad parameter ln.",
            Parameter::Street1 => b"Bad parameter street1.",
            Parameter::Street2 => b"Bad parameter street2.",
            Parameter::City => b"Bad parameter city.",
            Parameter::State => b"Bad parameter state.",
            Parameter::Zip => b"Bad parameter zip.",
            Parameter::Country => b"Bad parameter country.",
            Parameter::Phone => b"Bad parameter phone.",
            Parameter::Email => b"Bad parameter email.",
            Parameter::Card => b"Bad parameter card.",
            Parameter::Number => b"Bad parameter number.",
            Parameter::Name => b"Bad parameter name.",
            Parameter::Expiry => b"Bad parameter expiry.",
            Parameter::Ship => b"Bad parameter ship.",
            Parameter::Cost => b"Bad parameter cost.",
            Parameter::Image => b"Bad parameter image.",
            Parameter::Thumb => b"Bad parameter thumb.",
            Parameter::Title => b"Bad parameter title.",
            Parameter::Author => b"Bad parameter author.",
            Parameter::Publisher => b"Bad parameter publisher.",
            Parameter::About => b"Bad parameter about.",
            Parameter::Srp => b"Bad parameter srp.",
            Parameter::Stock => b"Bad parameter stock.",
            Parameter::Pages => b"Bad parameter pages.",
            Parameter::Backing => b"Bad parameter backing.",
        }
    }
}
