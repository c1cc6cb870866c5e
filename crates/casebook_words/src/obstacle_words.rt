//! Why it isn't known what lines do, in words.
ghost use Rattle.std.specs.Prelude.{◌≡◌, IsTrue};
ghost use Rattle.std.specs.List.{list_all};
ghost use Rattle.casebook_text.specs.SafeText.{is_printable};
ghost use Rattle.casebook_words.specs.Obstacles.{obstacle_text, obstacles_text};

use casebook_usage::Obstacle;

/// Returns why it isn't known what one line does.
#[tactic(auto, unfolding(crate::specs::Obstacles::obstacle_text))]
pub fn obstacle_text(obstacle: Obstacle) -> &'static str
    ensures value { result.now ≡ obstacle_text obstacle }
    ensures printable { IsTrue (list_all is_printable result.now) }
{
    match obstacle {
        Obstacle::Command => "a command that Retro doesn't know",
        Obstacle::Form => "an option or form that it doesn't have",
        Obstacle::Expansion => "a pattern or value that a shell expands",
        Obstacle::Terminal => "a command that reads the terminal",
        Obstacle::Observed => "not in Retro's shell, or it did something else",
        Obstacle::Need => "what it depends on would be another",
    }
}

/// Returns why it isn't known what several lines do.
#[tactic(auto, unfolding(crate::specs::Obstacles::obstacles_text))]
pub fn obstacles_text(obstacle: Obstacle) -> &'static str
    ensures value { result.now ≡ obstacles_text obstacle }
    ensures printable { IsTrue (list_all is_printable result.now) }
{
    match obstacle {
        Obstacle::Command => "commands that Retro doesn't know",
        Obstacle::Form => "options or forms that it doesn't have",
        Obstacle::Expansion => "patterns or values that a shell expands",
        Obstacle::Terminal => "commands that read the terminal",
        Obstacle::Observed => "not in Retro's shell, or it did something else",
        Obstacle::Need => "what they depend on would be another",
    }
}
