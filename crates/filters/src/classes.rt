// Tests on class and id. A set of candidates goes with each text that is searched: the class alone, or class and id as one.
ghost use Rattle.std.specs.Prelude.{◌&&◌, ◌||◌, [], map, ◌≡◌};
ghost use Rattle.patterns.specs.Candidates.{Candidates};
ghost use Rattle.patterns.specs.Numbers.{number_of};
ghost use Rattle.patterns.specs.Patterns.{article_cls, skip_link_cls};
ghost use Rattle.byte_regex.specs.Joined.{joined};
ghost use Rattle.byte_regex.specs.Match.{finds};
ghost use Rattle.tags.specs.Tags.{is_a_div_or_li, is_article};
ghost use Rattle.filters.specs.Classes.{any_match, Joinable};
ghost use Rattle.filters.specs.Filters.{comment_section, landmark, not_displayed, signin_meta_or_social};

use patterns::{Pattern, matches_among, matches_joined};

// Whether one of the patterns matches.
pub fn any_among(set: u32, wanted: &[Pattern], class: &[u8], id: &[u8]) -> bool
    requires { Joinable class.now id.now × Candidates set (joined class.now id.now) }
    ensures { result ≡ any_match (map number_of wanted.now) (joined class.now id.now) }
{
    for &pattern in wanted {
        if matches_among(set, pattern, class, id) {
            return true;
        }
    }
    false
}

pub fn not_displayed(set: u32, hidden_elements: bool, class: &[u8], style: &[u8]) -> bool
    requires { Joinable class.now style.now × Candidates set class.now }
    ensures { result ≡ not_displayed hidden_elements class.now style.now }
{
    (!hidden_elements && matches_among(set, Pattern::DisplayCls, b"", class))
        || matches_joined(Pattern::DisplayCss, b"", style)
}

fn is_a_div_or_li(tag: u8) -> bool
    ensures { result ≡ is_a_div_or_li tag }
{
    matches!(tag, tags::A | tags::DIV | tags::LI)
}

pub fn skip_link(set: u32, tag: u8, class: &[u8], id: &[u8]) -> bool
    requires { Joinable class.now id.now × Candidates set (joined class.now id.now) }
    ensures { result ≡ (is_a_div_or_li tag && finds skip_link_cls (joined class.now id.now)) }
{
    is_a_div_or_li(tag) && matches_among(set, Pattern::SkipLinkCls, class, id)
}

pub fn signin_meta_or_social(set: u32, post_meta: bool, depth: usize, class: &[u8]) -> bool
    requires { Joinable [] class.now × Candidates set class.now }
    ensures { result ≡ signin_meta_or_social post_meta depth class.now }
{
    if depth <= 2 {
        return false;
    }
    if post_meta {
        let wanted = [Pattern::SigninCls, Pattern::SocialCls];
        return any_among(set, &wanted, b"", class);
    }
    let wanted = [Pattern::SigninCls, Pattern::PostMetaCls, Pattern::SocialCls];
    any_among(set, &wanted, b"", class)
}

pub fn comment_section(set: u32, comments: bool, class: &[u8], id: &[u8]) -> bool
    requires { Joinable class.now id.now × Candidates set (joined class.now id.now) }
    ensures { result ≡ comment_section comments (joined class.now id.now) }
{
    !comments && matches_among(set, Pattern::CommentsCls, class, id)
}

pub fn article(set: u32, tag: u8, class: &[u8], id: &[u8]) -> bool
    requires { Joinable class.now id.now × Candidates set (joined class.now id.now) }
    ensures { result ≡ (is_article tag || finds article_cls (joined class.now id.now)) }
{
    tag == tags::ARTICLE || matches_among(set, Pattern::ArticleCls, class, id)
}

pub fn landmark(set: u32, class: &[u8], id: &[u8]) -> bool
    requires { Joinable class.now id.now × Candidates set (joined class.now id.now) }
    ensures { result ≡ landmark id.now (joined class.now id.now) }
{
    if matches_joined(Pattern::LandmarkId, b"", id) {
        return true;
    }
    let wanted = [
        Pattern::HeaderCls,
        Pattern::FooterCls,
        Pattern::NavCls,
        Pattern::RecommendedCls,
        Pattern::SearchCls,
        Pattern::SidebarCls,
        Pattern::ModalCls,
        Pattern::GalleryCls,
        Pattern::PrintCls,
    ];
    any_among(set, &wanted, class, id)
}
