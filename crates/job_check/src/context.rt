//! A job in view.
ghost use Rattle.std.specs.Prelude.{◌≡◌, ◌↔◌, ◌<◌, ◌≤◌, length, IsTrue};
ghost use Rattle.field_words.specs.Questions.{Answers, NeverHidesFault};
ghost use Rattle.job_format.specs.File.{IsWellFormed, IsJobWellFormed};
ghost use Rattle.job_format.specs.Parts.{parts_view, job_parts_view};
ghost use Rattle.buffer_table.specs.Sound.{IsSound};
ghost use Rattle.job_format.specs.declared.rule.Stage.TheVariants.{X as StageX};
ghost use Rattle.job_format.specs.declared.rule.Part.TheVariants.{JobEntry as JobEntryPart};
ghost use Rattle.job_format.specs.Places.{place_in};
ghost use Rattle.shader_records.specs.Inputs.{shaders_view, AreShaped};
ghost use Rattle.job_check.specs.Shaders.{table_of};
ghost use Rattle.job_check.specs.Jobs.{job_of, lists_begin, layout_of, end_of};
ghost use Rattle.job_check.specs.Context.{in_view};
ghost use Rattle.relocation.specs.Layout.{region_end};
ghost use Rattle.job_check.specs.Region.{region_from};
ghost use Rattle.job_check.specs.Faults.{refusal_by, handles_stage};

use super::layout::{is_inside, job_layout};
use super::refusals::refusal;
use buffer_table::{Handles, Table};
use field_words::Stop;
use job_format::{FileParts, JobParts, Part, Refusal, Stage};
use qpu_isa::ShaderInfo;
use relocation::Layout;
use std::alloc::Global;
use std::marker::Model;

/// A job in view, with what all its stages ask: the file with its memory table, in which no rule is broken, what is reported of its
/// shaders, the job's number, its handles, of which none is refused, and where its lists go. A further stage is a further method.
#[derive(Drop)]
pub struct Context<'a, 'b> {
    pub file: &'a FileParts<'b>,
    pub number: usize,
    pub job: &'a JobParts<'b>,
    pub table: &'a Table<'a>,
    pub shaders: &'a Vec<Option<ShaderInfo>>,
    pub handles: Handles<'a>,
    pub layout: Layout,
}

impl<'a, 'b> Model for Context<'a, 'b> {
    ghost use Rattle.job_check.specs.Context.{InView, IsContext};

    ghost Value = { InView };

    ghost use Rattle.job_format.specs.Parts.{parts_view, job_parts_view};
    ghost use Rattle.shader_records.specs.Inputs.{shaders_view};

    ghost view = { λ c. record {
      file = parts_view c.file.now;
      number = c.number;
      shaders = shaders_view c.shaders.now.items;
    } };

    ghost invariant = { λ c. IsContext (record {
      file = parts_view c.file.now;
      number = c.number;
      shaders = shaders_view c.shaders.now.items;
    }) (job_parts_view c.job.now)
        c.table.now (shaders_view c.shaders.now.items) c.handles c.layout };
}

/// The job of this number.
pub fn job_at<'a, 'b>(file: &'a FileParts<'b>, number: usize) -> &'a JobParts<'b>
    requires well_formed { IsWellFormed (parts_view file.now) }
    requires inside { number < length file.now.jobs.items }
    ensures value { job_parts_view result.now ≡ job_of (parts_view file.now) number }
    ensures limits { IsJobWellFormed (job_parts_view result.now) }
{
    &file.jobs[number]
}

impl<'a, 'b> Context<'a, 'b> {
    /// H: the handles of the job of this number, and with them the job in view, whose lists begin at this place. Finding a fault takes
    /// no memory.
    #[tactic(auto, unfolding(crate::specs::Faults::handles_stage), using(field_words::proofs::Questions::answered_none, field_words::proofs::Questions::answered_some))]
    pub fn open(
        alloc: Global,
        file: &'a FileParts<'b>,
        number: usize,
        place: u32,
        table: &'a Table<'a>,
        shaders: &'a Vec<Option<ShaderInfo>>,
    ) -> Result<Context<'a, 'b>, Stop<Refusal>>
        requires well_formed { IsWellFormed (parts_view file.now) }
        requires inside { number < length file.now.jobs.items }
        requires place_is { place ≡ lists_begin (parts_view file.now) number }
        requires begins { place ≤ region_end file.now.regions }
        requires table_is { table.now ≡ table_of (parts_view file.now) }
        requires shaped { AreShaped (table_of (parts_view file.now))
            (shaders_view shaders.now.items) }
        requires sound { IsSound file.now.mem_size file.now.regions file.now.buffers.items }
        ensures answers { Answers (handles_stage (parts_view file.now) number)
            (λ c. c ≡ in_view (parts_view file.now) number (shaders_view shaders.now.items)) result }
        ensures memory { NeverHidesFault (handles_stage (parts_view file.now) number) result }
    {
        let job = job_at(file, number);
        match Handles::make(alloc, table, job.client, job.handles.as_slice()) {
            Ok(handles) => Ok(Context {
                file,
                number,
                job,
                table,
                shaders,
                handles,
                layout: job_layout(file, number, place, job),
            }),
            Err(Stop::Fault(index)) => {
                let at = 4 * u64::from(index);
                Err(Stop::Fault(refusal(Stage::H, 1, Part::Handles, number, at)))
            }
            Err(Stop::NoMemory) => Err(Stop::NoMemory),
        }
    }

    /// Where in the region of the lists those of this job begin.
    pub fn place_in_region(&self) -> u32
        ensures { result ≡ region_from self.now.file self.now.number }
    {
        self.layout.place - self.file.regions.lists_place
    }

    /// Whether the lists end inside their region.
    pub fn fits(&self) -> bool
        ensures { IsTrue result
            ↔ (end_of (layout_of self.now.file self.now.number)
            ≤ region_end self.now.file.regions) }
    {
        is_inside(&self.layout, &self.file.regions)
    }

    /// X1: the lists end past their region.
    pub fn layout_refusal(&self) -> Refusal
        ensures { result ≡ refusal_by StageX 1 (place_in JobEntryPart self.now.number 12) }
    {
        refusal(Stage::X, 1, Part::JobEntry, self.number, 12)
    }
}
