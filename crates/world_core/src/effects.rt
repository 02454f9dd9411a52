use crate::marks::Marks;
use span_base::Listed;
use wire_msg::Post;

/// What an event leaves beside the new state: the messages that it sends, and its marks.
#[derive(Drop)]
pub struct Effects {
    /// In the order in which they are sent.
    pub posts: Listed<Post>,
    pub marks: Marks,
}
