ghost use Rattle.std.specs.Prelude.{◌≡◌, ◌<◌, length};
ghost use Rattle.world_core.specs.State.{view_at};
ghost use Rattle.world_core.specs.Knowing.{seen_after};
ghost use Rattle.world_core.specs.Step.{seen_with, views_with};

use span_base::KeyId;
use ticket_rules::Stamp;
use wire_msg::{Message, View};

/// What a proxy learns from a message. It is kept beside the proxy until nothing can fail any
/// more.
#[derive(Debug, Drop)]
pub struct Lesson {
    /// The greatest number that the proxy saw in a stamp, this message's counted.
    pub seen: u64,
    /// The later epoch of a key, where the message shows one.
    pub shown: Option<View>,
}

impl Lesson {
    /// What is known of a key, once the lesson is learned over these views.
    pub(crate) fn view<'a>(&'a self, views: &'a [View], key: KeyId) -> &'a View
        requires { key.0 < length views.now }
        ensures { result.now ≡ view_at (views_with views.now self.now.shown) key }
    {
        match &self.shown {
            Some(shown) if shown.key.0 == key.0 => shown,
            _ => &views[usize::from(key.0)],
        }
    }
}

/// The greatest number that was seen: a version, a mark and a stamp that is held show theirs.
pub(crate) fn seen_after(seen: u64, message: &Message) -> u64
    ensures { result ≡ seen_after seen message.now }
{
    match message {
        Message::Have { version, mark, .. } => seen.max(version.number).max(mark.number),
        Message::Held { stamp, .. } => seen.max(stamp.number),
        _ => seen,
    }
}

/// The greatest number that was seen, once a ticket is drawn.
pub(crate) fn seen_with(seen: u64, ticket: &Option<Stamp>) -> u64
    ensures { result ≡ seen_with seen ticket.now }
{
    match ticket {
        Some(stamp) => stamp.number,
        None => seen,
    }
}

/// The view takes the place of what was known of its key.
pub(crate) fn set_view(views: &mut Vec<View>, view: Option<View>)
    ensures { views.new.items ≡ views_with views.old.items view }
{
    if let Some(view) = view {
        let place = usize::from(view.key.0);
        if place < views.len() {
            views[place] = view;
        }
    }
}
