//! The laws of texts without their block comments.

ghost use Rattle.extended_reader.specs.CommentLaws.{CommentsKeepPlaces};

/// The law of every text: without its block comments it is as long as it was, and each line ends where it did.
pub fn comments_keep_places()
    ensures { CommentsKeepPlaces }
{}
