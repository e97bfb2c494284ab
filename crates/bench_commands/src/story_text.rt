//! The text by which the stories of hirings are told.
ghost use Rattle.std.specs.Prelude.{◌++◌, ◌≡◌, ◌≤◌, IfOk, OnOk, flat_map, map};
ghost use Rattle.bench_commands.specs.{Common.{story_of}, StoryText.{moment_text, stories_text, story_text}};
ghost use Rattle.bench_commands.specs.ExplainedText.{numbered_texts};

use crate::explained_lines::title_line;
use crate::explained_text::push_line;
use crate::story_lines::{last_line, moment_line};
use std::alloc::Global;
use taxi_units::NoMemory;
use verify_bench::{Moment, Story};

/// The text by which stories are told, one after the other, with the decimals of a tariff. `NoMemory`: memory ran out.
pub fn text_of_stories(alloc: Global, decimals: u8, stories: &[Story]) -> Result<Vec<u8>, NoMemory>
    requires { decimals ≤ 3 }
    ensures { IfOk result (λ text. text.items ≡ stories_text decimals (map story_of stories.now)) }
{
    let mut text = Vec::new(alloc);
    push_stories(&mut text, decimals, stories)?;
    Ok(text)
}

/// Appends the texts of stories, which are numbered from 1.
fn push_stories(text: &mut Vec<u8>, decimals: u8, stories: &[Story]) -> Result<(), NoMemory>
    requires { decimals ≤ 3 }
    ensures { OnOk result (text.new.items
        ≡ text.old.items ++ numbered_texts (story_text decimals) 1 (map story_of stories.now)) }
{
    let mut number = 0u64;
    for story in stories {
        number += 1;
        push_story(text, decimals, number, story)?;
    }
    Ok(())
}

/// Appends the text of a story.
#[tactic(auto, unfolding(crate::specs::StoryText::story_text))]
fn push_story(text: &mut Vec<u8>, decimals: u8, number: u64, story: &Story) -> Result<(), NoMemory>
    requires { decimals ≤ 3 }
    ensures { OnOk result (text.new.items ≡ text.old.items ++ story_text decimals number (story_of story.now)) }
{
    push_line(text, title_line(number, story.kind))?;
    push_moments(text, decimals, story.moments.as_slice())?;
    push_line(text, last_line())
}

/// Appends the lines of moments.
fn push_moments(text: &mut Vec<u8>, decimals: u8, moments: &[Moment]) -> Result<(), NoMemory>
    requires { decimals ≤ 3 }
    ensures { OnOk result (text.new.items ≡ text.old.items ++ flat_map (moment_text decimals) moments.now) }
{
    for moment in moments {
        push_line(text, moment_line(decimals, moment))?;
    }
    Ok(())
}
