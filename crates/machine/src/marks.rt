ghost use Rattle.std.specs.Prelude.{◌≡◌, ℕ, ◌+◌, ◌-◌, min};

// A mark and a content are plain numbers, so these two cannot be `From`.

// The content that keeps a mark, never 0, since that means empty.
pub fn content_for(mark: u8) -> u16
    ensures { result ≡ mark + 1 }
{
    u16::from(mark) + 1
}

// The mark that a content keeps.
pub fn mark_of(content: u16) -> u8
    ensures { result ≡ min (content - 1) 255 }
{
    content.saturating_sub(1).min(255) as u8
}
