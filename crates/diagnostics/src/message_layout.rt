//! The layout of messages.

/// The layout of messages.
#[derive(Clone, Copy, Debug, PartialEq, Eq)]
pub enum MessageLayout {
    /// A single line for each message.
    Plain,
    /// A line for each message, followed by the line of the file with marks below the value.
    WithExcerpts,
}

/// The layout of messages, and the file name that they begin with.
#[derive(Clone, Copy)]
pub struct RenderOptions<'a> {
    pub layout: MessageLayout,
    pub name: &'a str,
}
