// The options of an extraction (`ExtractOptions` of html2text.rs), without those that only shape selectors, and our icons and
// missing_alt; and the line that names them.
#![tactic(auto)]

pub mod line;

ghost use Rattle.std.specs.Prelude.{◌≡◌};
ghost use Rattle.options.specs.Options.{is_basic, is_minimal_html, is_off, standing};

#[derive(Clone, Copy, Debug, PartialEq, Eq)]
pub enum Formatting {
    Off,
    Basic,
    MinimalHtml,
}

impl Formatting {
    pub fn is_off(self) -> bool
        ensures { result ≡ is_off self }
    {
        self == Formatting::Off
    }

    pub fn is_basic(self) -> bool
        ensures { result ≡ is_basic self }
    {
        self == Formatting::Basic
    }

    pub fn is_minimal_html(self) -> bool
        ensures { result ≡ is_minimal_html self }
    {
        self == Formatting::MinimalHtml
    }
}

// `icons`: false as the Rust, true private. `missing_alt`: whether a word stands for an alt that is absent.
#[derive(Clone, Copy, Debug, PartialEq, Eq)]
pub struct ExtractOptions {
    pub formatting: Formatting,
    pub main_content: bool,
    pub list_bullets: bool,
    pub alt_texts: bool,
    pub links: bool,
    pub form_fields: bool,
    pub comments: bool,
    pub post_meta: bool,
    pub hidden_elements: bool,
    pub icons: bool,
    pub missing_alt: bool,
}

// The standing options.
impl Default for ExtractOptions {
    ghost is_default = { λ o. o ≡ standing };

    fn default() -> ExtractOptions {
        ExtractOptions {
            formatting: Formatting::Basic,
            main_content: false,
            list_bullets: true,
            alt_texts: true,
            links: false,
            form_fields: false,
            comments: true,
            post_meta: true,
            hidden_elements: false,
            icons: false,
            missing_alt: false,
        }
    }
}
