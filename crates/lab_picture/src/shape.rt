ghost use Rattle.std.specs.Prelude.{◌≡◌};
ghost use Rattle.lab_picture.specs.Svg.{key_word, style, symbol_reference, symbol_style, symbol_tag, tag};

// The attributes that are numbers.
#[derive(Clone, Copy)]
pub(crate) enum Key {
    X,
    Y,
    X1,
    Y1,
    X2,
    Y2,
    Width,
    Height,
}

// The symbols of what happens, each defined once and placed where it happens.
#[derive(Clone, Copy)]
pub(crate) enum Symbol {
    Publish,
    Withdraw,
    Timer,
    Restart,
    Command,
    Fetch,
    Loop,
}

// What is drawn.
#[derive(Clone, Copy)]
pub(crate) enum Shape {
    Picture,
    Definitions,
    Head,
    HeadPath,
    Defined(Symbol),
    // The page, and the columns.
    Ground,
    Life,
    MirrorLife,
    Label,
    MirrorLabel,
    // What a row has.
    Guide,
    Number,
    Text,
    Count,
    Note,
    LeftNote,
    More,
    Placed(Symbol),
    DashedLoop,
    Arrow,
    DashedArrow,
    Band,
}

impl Key {
    pub fn word(self) -> &'static [u8]
        ensures { result.now ≡ key_word self }
    {
        match self {
            Key::X => b"x",
            Key::Y => b"y",
            Key::X1 => b"x1",
            Key::Y1 => b"y1",
            Key::X2 => b"x2",
            Key::Y2 => b"y2",
            Key::Width => b"width",
            Key::Height => b"height",
        }
    }
}

impl Symbol {
    // The name of the element that the symbol is defined as.
    pub fn tag(self) -> &'static [u8]
        ensures { result.now ≡ symbol_tag self }
    {
        match self {
            Symbol::Publish => b"circle",
            Symbol::Withdraw
            | Symbol::Timer
            | Symbol::Restart
            | Symbol::Command
            | Symbol::Fetch
            | Symbol::Loop => b"path",
        }
    }

    // The attributes of the element that the symbol is defined as.
    pub fn style(self) -> &'static [u8]
        ensures { result.now ≡ symbol_style self }
    {
        match self {
            Symbol::Publish => b" id='publish' r='6'",
            Symbol::Withdraw => b" id='withdraw' d='M0 -7L7 0L0 7L-7 0z'",
            Symbol::Timer => b" id='timer' d='M-7 -6L7 -6L0 7z'",
            Symbol::Restart =>
                b" id='restart' d='M-6 -6L6 6M-6 6L6 -6' stroke='#000' stroke-width='3'",
            Symbol::Command =>
                b" id='command' d='M-6 -6H6V6H-6z' fill='#fff' stroke='#000' stroke-width='2'",
            Symbol::Fetch => b" id='fetch' d='M-10 -4H10V4H-10z' fill='#555'",
            Symbol::Loop =>
                b" id='loop' d='M0 -6H24V6H2' fill='none' stroke='#000' marker-end='url(#head)'",
        }
    }

    // The attribute by which the symbol is placed.
    pub fn reference(self) -> &'static [u8]
        ensures { result.now ≡ symbol_reference self }
    {
        match self {
            Symbol::Publish => b" href='#publish'",
            Symbol::Withdraw => b" href='#withdraw'",
            Symbol::Timer => b" href='#timer'",
            Symbol::Restart => b" href='#restart'",
            Symbol::Command => b" href='#command'",
            Symbol::Fetch => b" href='#fetch'",
            Symbol::Loop => b" href='#loop' stroke-width='1.5'",
        }
    }
}

impl Shape {
    // The name of the element.
    #[tactic(auto, unfolding(crate::specs::Svg::tag))]
    pub fn tag(self) -> &'static [u8]
        ensures { result.now ≡ tag self }
    {
        match self {
            Shape::Picture => b"svg",
            Shape::Definitions => b"defs",
            Shape::Head => b"marker",
            Shape::HeadPath => b"path",
            Shape::Defined(symbol) => symbol.tag(),
            Shape::Ground | Shape::Band => b"rect",
            Shape::Life | Shape::MirrorLife | Shape::Guide | Shape::Arrow | Shape::DashedArrow => {
                b"line"
            }
            Shape::Label
            | Shape::MirrorLabel
            | Shape::Number
            | Shape::Text
            | Shape::Count
            | Shape::Note
            | Shape::LeftNote
            | Shape::More => b"text",
            Shape::Placed(_) | Shape::DashedLoop => b"use",
        }
    }

    // The attributes that each element of this shape has.
    #[tactic(auto, unfolding(crate::specs::Svg::style))]
    pub fn style(self) -> &'static [u8]
        ensures { result.now ≡ style self }
    {
        match self {
            Shape::Picture =>
                b" xmlns='http://www.w3.org/2000/svg' font-family='monospace' font-size='12'",
            Shape::Definitions | Shape::Text => b"",
            Shape::Head =>
                b" id='head' markerWidth='7' markerHeight='6' refX='6' refY='3' orient='auto'",
            Shape::HeadPath => b" d='M0 0L7 3L0 6z'",
            Shape::Defined(symbol) => symbol.style(),
            Shape::Ground => b" fill='#fff'",
            Shape::Life => b" stroke='#777' stroke-width='1.5'",
            Shape::MirrorLife => b" stroke='#777' stroke-width='1.5' stroke-dasharray='2 4'",
            Shape::Label => b" text-anchor='middle' font-weight='bold'",
            Shape::MirrorLabel => b" text-anchor='middle' font-weight='bold' font-style='italic'",
            Shape::Guide => b" stroke='#ddd'",
            Shape::Number => b" text-anchor='end' fill='#666'",
            Shape::Count => b" text-anchor='end' font-size='11' font-weight='bold'",
            Shape::Note => b" font-size='11'",
            Shape::LeftNote => b" text-anchor='end' font-size='11'",
            Shape::More => b" font-style='italic'",
            Shape::Placed(symbol) => symbol.reference(),
            Shape::DashedLoop => b" href='#loop' stroke-width='1.5' stroke-dasharray='6 4'",
            Shape::Arrow => b" stroke='#000' stroke-width='1.5' marker-end='url(#head)'",
            Shape::DashedArrow =>
                b" stroke='#000' stroke-width='1.5' stroke-dasharray='6 4' marker-end='url(#head)'",
            Shape::Band => b" fill='#bbb' fill-opacity='0.6'",
        }
    }
}
