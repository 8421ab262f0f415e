//! What holds of all replies.

ghost use Rattle.reply_laws.specs.Laws.{OneReply, RepliesComplete};

use enclosure_regions::region_files_are_one;

/// Where the file source tells its meanings, words have one reply.
pub fn replies_are_one()
    ensures { OneReply }
{
    region_files_are_one();
}

/// Which status a command has where its files are loaded and well formed, both ways.
pub fn replies_are_complete()
    ensures { RepliesComplete }
{
    region_files_are_one();
}
