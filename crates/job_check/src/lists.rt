//! The stages of a job that write its lists.
ghost use Rattle.std.specs.Prelude.{◌≡◌, ◌≢◌, ◌<◌, ◌≤◌, ◌+◌, ◌++◌, true, false, length, IfOk, Err, Some};
ghost use Rattle.field_words.specs.declared.stop.Stop.TheVariants.{NoMemory as OutOfMemory};
ghost use Rattle.field_words.specs.Questions.{Answers};
ghost use Rattle.field_words.specs.Writes.{parts_placed, with_bytes};
ghost use Rattle.render_list.specs.Frame.{IsSetupFor};
ghost use Rattle.job_check.specs.Jobs.{has_bin, grid_of, places_in, states_in};
ghost use Rattle.job_check.specs.Context.{IsReported, job_in, layout_in, bin_list_in, records_in, streams_in, render_list_in, lengths_in};
ghost use Rattle.job_check.specs.Faults.{bin_stage, records_stage, surfaces_stage, lists_stages};
ghost use Rattle.job_check.specs.Emit.{list_parts, later_parts, PartsFit};
ghost use Rattle.job_check.specs.Report.{IsBinOf, AreRecordsOf, HasStateFirst};

use super::context::Context;
use super::refusals::{bin_refusal, record_refusal, surface_refusal};
use bin_list::{BinInfo, State, check_bin};
use field_words::Stop;
use job_format::Refusal;
use relocation::Lengths;
use render_list::{Setup, build, check_surfaces};
use shader_records::{Inputs, RecordInfo, check_records};
use std::alloc::Global;

impl<'a, 'b> Context<'a, 'b> {
    /// B: the binner list, and the one that the hardware is given at its offset in the window of the lists' region.
    #[tactic(auto, unfolding(crate::specs::Faults::bin_stage), using(field_words::proofs::Questions::answered_none, field_words::proofs::Questions::answered_some))]
    fn bin(&self, alloc: Global, out: &mut [u8]) -> Result<BinInfo, Stop<Refusal>>
        requires some { has_bin self.now.file self.now.number ≡ true }
        requires room { (layout_in self.now).end ≤ length out.old }
        ensures answers { Answers (bin_stage self.now.file self.now.number)
            (IsBinOf self.now.file self.now.number) result }
        ensures written { IfOk result (λ _. out.new
            ≡ with_bytes out.old (layout_in self.now).bin (bin_list_in self.now)) }
        ensures fits { IfOk result (λ _. length (bin_list_in self.now)
            ≤ length (job_in self.now).bin) }
        ensures memory { result ≡ Err OutOfMemory → HasStateFirst self.now.file self.now.number }
    {
        let job = self.job;
        match check_bin(
            alloc,
            job.bin,
            job.declared,
            self.table,
            &self.handles,
            &self.layout,
            out,
        ) {
            Ok(info) => Ok(info),
            Err(Stop::Fault(fault)) => Err(Stop::Fault(bin_refusal(self.number, &fault))),
            Err(Stop::NoMemory) => Err(Stop::NoMemory),
        }
    }

    /// G: the frame and its surfaces, with the binner's grid where there is a binner list. It takes no memory.
    #[tactic(auto, unfolding(crate::specs::Faults::surfaces_stage, crate::specs::Jobs::places_in), using(field_words::proofs::Questions::answered_none, field_words::proofs::Questions::answered_some))]
    fn surfaces(&self, tiles: Option<(u8, u8)>) -> Result<Setup, Stop<Refusal>>
        requires { tiles ≡ grid_of self.now.file self.now.number }
        ensures answers { Answers (surfaces_stage self.now.file self.now.number)
            (λ setup. setup.places ≡ places_in self.now.file self.now.number) result }
        ensures setup { IfOk result (λ setup. IsSetupFor (job_in self.now).frame setup.places) }
        ensures takes_no_memory { result ≢ Err OutOfMemory }
    {
        match check_surfaces(&self.job.frame, tiles, self.table, &self.handles) {
            Ok(setup) => Ok(setup),
            Err(fault) => Err(Stop::Fault(surface_refusal(self.number, &fault))),
        }
    }

    /// Writes the renderer list at its offset, and tells its length.
    fn render(&self, setup: &Setup, tiles: Option<(u8, u8)>, out: &mut [u8]) -> u32
        requires tiles_are { tiles ≡ grid_of self.now.file self.now.number }
        requires room { (layout_in self.now).end ≤ length out.old }
        requires places { setup.now.places ≡ places_in self.now.file self.now.number }
        requires setup { IsSetupFor (job_in self.now).frame setup.now.places }
        ensures value { result ≡ length (render_list_in self.now) }
        ensures written { out.new ≡ with_bytes out.old (layout_in self.now).render
            (render_list_in self.now) }
        ensures fits { (layout_in self.now).render + result ≡ (layout_in self.now).end }
    {
        build(&self.job.frame, setup, tiles, &self.layout, out);
        self.layout.end - self.layout.render
    }

    /// G, and the renderer list.
    fn draw(&self, tiles: Option<(u8, u8)>, out: &mut [u8]) -> Result<u32, Stop<Refusal>>
        requires tiles_are { tiles ≡ grid_of self.now.file self.now.number }
        requires room { (layout_in self.now).end ≤ length out.old }
        ensures answers { Answers (surfaces_stage self.now.file self.now.number)
            (λ n. n ≡ length (render_list_in self.now)) result }
        ensures written { IfOk result (λ _. out.new
            ≡ with_bytes out.old (layout_in self.now).render (render_list_in self.now)) }
        ensures fits { IfOk result (λ n. (layout_in self.now).render + n
            ≡ (layout_in self.now).end) }
        ensures takes_no_memory { result ≢ Err OutOfMemory }
    {
        let setup = self.surfaces(tiles)?;
        Ok(self.render(&setup, tiles, out))
    }

    /// A and U: the shader records and uniforms of the states of the binner list, and those that the hardware is given, at
    /// their offsets. It takes no memory.
    #[tactic(auto, unfolding(crate::specs::Faults::records_stage), using(field_words::proofs::Questions::answered_none, field_words::proofs::Questions::answered_some))]
    fn records(&self, states: &[State], out: &mut [u8]) -> Result<RecordInfo, Stop<Refusal>>
        requires some { has_bin self.now.file self.now.number ≡ true }
        requires states { states.now ≡ states_in self.now.file self.now.number }
        requires room { (layout_in self.now).end ≤ length out.old }
        ensures answers { IsReported self.now
            → Answers (records_stage self.now.file self.now.number)
            (AreRecordsOf self.now.file self.now.number) result }
        ensures written { IsReported self.now
            → IfOk result (λ _. out.new
            ≡ with_bytes (with_bytes out.old (layout_in self.now).records (records_in self.now))
            (layout_in self.now).uniforms (streams_in self.now)) }
        ensures records_fit { IsReported self.now
            → IfOk result (λ _. length (records_in self.now) ≤ length (job_in self.now).records) }
        ensures streams_fit { IsReported self.now
            → IfOk result (λ _. length (streams_in self.now) ≤ length (job_in self.now).uniforms) }
        ensures takes_no_memory { result ≢ Err OutOfMemory }
    {
        let job = self.job;
        let inputs = Inputs {
            states,
            records: job.records,
            uniforms: job.uniforms,
            table: self.table,
            handles: &self.handles,
            shaders: self.shaders,
        };
        match check_records(&inputs, &self.layout, out) {
            Ok(info) => Ok(info),
            Err(Stop::Fault(fault)) => Err(Stop::Fault(record_refusal(self.number, &fault))),
            Err(Stop::NoMemory) => Err(Stop::NoMemory),
        }
    }

    /// The stages after the records, with what was reported of the lists before.
    fn after_records(
        &self,
        bin: &BinInfo,
        records: &RecordInfo,
        out: &mut [u8],
    ) -> Result<Lengths, Stop<Refusal>>
        requires bin { IsBinOf self.now.file self.now.number bin.now }
        requires records { IsReported self.now
            → AreRecordsOf self.now.file self.now.number records.now }
        requires room { (layout_in self.now).end ≤ length out.old }
        ensures answers { IsReported self.now
            → Answers (surfaces_stage self.now.file self.now.number)
            (λ lengths. lengths ≡ lengths_in self.now) result }
        ensures written { IfOk result (λ _. out.new
            ≡ with_bytes out.old (layout_in self.now).render (render_list_in self.now)) }
        ensures fits { IfOk result (λ _. (layout_in self.now).render
            + length (render_list_in self.now) ≡ (layout_in self.now).end) }
        ensures takes_no_memory { result ≢ Err OutOfMemory }
    {
        let render = self.draw(Some((bin.tiles_x, bin.tiles_y)), out)?;
        Ok(Lengths {
            bin: bin.length,
            records: records.records,
            uniforms: records.uniforms,
            render,
        })
    }

    /// The stages after the binner list, with what was reported of it.
    fn after_bin(&self, bin: &BinInfo, out: &mut [u8]) -> Result<Lengths, Stop<Refusal>>
        requires some { has_bin self.now.file self.now.number ≡ true }
        requires bin { IsBinOf self.now.file self.now.number bin.now }
        requires room { (layout_in self.now).end ≤ length out.old }
        requires bin_fits { length (bin_list_in self.now) ≤ length (job_in self.now).bin }
        ensures answers { IsReported self.now
            → Answers (records_stage self.now.file self.now.number
            ++ surfaces_stage self.now.file self.now.number)
            (λ lengths. lengths ≡ lengths_in self.now) result }
        ensures written { IsReported self.now
            → IfOk result (λ _. out.new
            ≡ parts_placed out.old (later_parts self.now.file self.now.number)) }
        ensures fit { IsReported self.now
            → IfOk result (λ _. PartsFit (layout_in self.now).end
            (list_parts self.now.file self.now.number)) }
        ensures takes_no_memory { result ≢ Err OutOfMemory }
    {
        let records = self.records(&bin.states, out)?;
        self.after_records(bin, &records, out)
    }

    /// The stages of a job with a binner list.
    #[tactic(auto, unfolding(crate::specs::Faults::lists_stages))]
    fn binned(&self, alloc: Global, out: &mut [u8]) -> Result<Lengths, Stop<Refusal>>
        requires some { has_bin self.now.file self.now.number ≡ true }
        requires room { (layout_in self.now).end ≤ length out.old }
        ensures answers { IsReported self.now
            → Answers (lists_stages self.now.file self.now.number)
            (λ lengths. lengths ≡ lengths_in self.now) result }
        ensures written { IsReported self.now
            → IfOk result (λ _. out.new
            ≡ parts_placed out.old (list_parts self.now.file self.now.number)) }
        ensures fit { IsReported self.now
            → IfOk result (λ _. PartsFit (layout_in self.now).end
            (list_parts self.now.file self.now.number)) }
        ensures memory { result ≡ Err OutOfMemory → HasStateFirst self.now.file self.now.number }
    {
        let bin = self.bin(alloc, out)?;
        self.after_bin(&bin, out)
    }

    /// The stages of a job without a binner list: its records, its declared states and its uniforms are not asked, and
    /// nothing of them is emitted.
    #[tactic(auto, unfolding(crate::specs::Faults::lists_stages, crate::specs::Faults::bin_stage, crate::specs::Faults::records_stage))]
    fn unbinned(&self, out: &mut [u8]) -> Result<Lengths, Stop<Refusal>>
        requires none { has_bin self.now.file self.now.number ≡ false }
        requires room { (layout_in self.now).end ≤ length out.old }
        ensures answers { Answers (lists_stages self.now.file self.now.number)
            (λ lengths. lengths ≡ lengths_in self.now) result }
        ensures written { IfOk result (λ _. out.new
            ≡ parts_placed out.old (list_parts self.now.file self.now.number)) }
        ensures fit { IfOk result (λ _. PartsFit (layout_in self.now).end
            (list_parts self.now.file self.now.number)) }
        ensures takes_no_memory { result ≢ Err OutOfMemory }
    {
        let render = self.draw(None, out)?;
        Ok(Lengths {
            bin: 0,
            records: 0,
            uniforms: 0,
            render,
        })
    }

    /// Whether the job has a binner list.
    #[tactic(auto, unfolding(crate::specs::Jobs::has_bin))]
    fn has_bin(&self) -> bool
        ensures { result ≡ has_bin self.now.file self.now.number }
    {
        self.job.bin.len() != 0
    }

    /// The stages that ask the job's lists and its surfaces, before that of the layout. The lists are written at their
    /// offsets in the window of the lists' region; where a rule is broken the window may hold anything.
    pub fn write_lists(&self, alloc: Global, out: &mut [u8]) -> Result<Lengths, Stop<Refusal>>
        requires { (layout_in self.now).end ≤ length out.old }
        ensures answers { IsReported self.now
            → Answers (lists_stages self.now.file self.now.number)
            (λ lengths. lengths ≡ lengths_in self.now) result }
        ensures written { IsReported self.now
            → IfOk result (λ _. out.new
            ≡ parts_placed out.old (list_parts self.now.file self.now.number)) }
        ensures fit { IsReported self.now
            → IfOk result (λ _. PartsFit (layout_in self.now).end
            (list_parts self.now.file self.now.number)) }
        ensures memory { result ≡ Err OutOfMemory → HasStateFirst self.now.file self.now.number }
    {
        if self.has_bin() {
            return self.binned(alloc, out);
        }
        self.unbinned(out)
    }
}
