//! Laws of what the words of the log's image mean.
ghost use Rattle.std.specs.Prelude.{ℕ, ◌<◌, ◌≡◌, List};
ghost use Rattle.log_commands.specs.{LogList.{StandsFor}, Record.{Record}, Unread.{IsBad}};

/// A law: an image stands for one list of receipts at most, and one that stands for a list has no bad slot. So a log
/// has a bad slot, is broken, or stands for the one list.
pub fn an_image_stands_for_one_list()
    ensures one { (image : List ℕ) (a b : List Record) → StandsFor a image → StandsFor b image → a ≡ b }
    ensures sound { (image : List ℕ) (records : List Record) (slot : ℕ) → slot < 256
        → StandsFor records image → ¬ IsBad image slot }
{}
