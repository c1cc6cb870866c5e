//! Obstacles in words.
ghost use Rattle.std.specs.Prelude.{◌≡◌};
ghost use Rattle.casebook_restore.specs.Words.{obstacle_words};

use casebook_folder::Obstacle;

/// Returns why nothing is changed at a path.
#[tactic(auto, unfolding(crate::specs::Words::obstacle_words))]
pub(crate) fn obstacle_text(obstacle: Obstacle) -> &'static str
    ensures { result.now ≡ obstacle_words obstacle }
{
    match obstacle {
        Obstacle::Link => "a link is there",
        Obstacle::Special => "a device, a pipe or a socket is there",
        Obstacle::Mount => "another file system is mounted there",
        Obstacle::Above => "a link or another file system is above it",
        Obstacle::Unreadable => "it can't be read",
        Obstacle::TooLarge => "the file is too large",
        Obstacle::SeveralNames => "the file has several names",
        Obstacle::Changing => "it changes while it is read",
        Obstacle::TemporaryName => "it is named like an unfinished file",
        Obstacle::NameTaken => "something has the name that it has while it is unfinished",
        Obstacle::NameTooLong => "its name is too long to be restored",
        Obstacle::OtherChild => "the directory has what isn't recorded",
    }
}
