ghost use Rattle.std.specs.Prelude.{◌≡◌, ◌-◌};

use wire_msg::Bulk;

/// What is left of the room once a frame of so many bytes came.
pub(crate) fn left_of(room: Bulk, bytes: u32) -> Bulk
    ensures { result ≡ record { posts = room.posts - 1; bytes = room.bytes - bytes } }
{
    Bulk {
        posts: room.posts.saturating_sub(1),
        bytes: room.bytes.saturating_sub(u64::from(bytes)),
    }
}
