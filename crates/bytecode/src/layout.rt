//! What both ways of the layout share.

/// What an image begins with: `SCCB`.
pub const MAGIC: [u8; 4] = [0x53, 0x43, 0x43, 0x42];
