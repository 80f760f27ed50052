//! The parts of the lists' region.
ghost use Rattle.std.specs.Prelude.{◌≡◌, ◌+◌, ◌≤◌, IfSome};
ghost use Rattle.std.specs.Option.{SomeIff};

use buffer_table::Regions;
use field_words::round_up;

/// Where a job's lists lie: `place` is where they begin in memory and `slot` where the job's tile
/// slot does, both in bytes. The others are offsets from `place`: where the binner list, the shader
/// records, the uniforms and the renderer list begin, and where the last one ends.
#[derive(Clone, Copy, Default, PartialEq, Eq, Debug)]
pub struct Layout {
    pub place: u32,
    pub bin: u32,
    pub records: u32,
    pub uniforms: u32,
    pub render: u32,
    pub end: u32,
    pub slot: u32,
}

/// How many bytes of each part were emitted. A part may be shorter than its room in the layout,
/// which is counted with the sizes of its source.
#[derive(Clone, Copy, Default, PartialEq, Eq, Debug)]
pub struct Lengths {
    pub bin: u32,
    pub records: u32,
    pub uniforms: u32,
    pub render: u32,
}

impl Layout {
    ghost use Rattle.field_words.specs.Sizes.{most_memory, most_list, most_render};
    ghost use Rattle.relocation.specs.Layout.{layout_at, layout_for, lists_end, region_end, begins_after, StandApart};

    /// The layout for parts of these sizes in bytes, in this order, from a place in memory on.
    ///
    /// The binner list stands at the place. Each further part begins where the one before ends,
    /// rounded up to 16, so that each record's address leaves its low four bits free.
    #[tactic(auto, unfolding(crate::specs::Layout::records_start, crate::specs::Layout::uniforms_start, crate::specs::Layout::render_start))]
    pub fn at(place: u32, bin: u32, records: u32, uniforms: u32, render: u64, slot: u32) -> Layout
        requires bin_limit { bin ≤ most_list }
        requires records_limit { records ≤ most_list }
        requires uniforms_limit { uniforms ≤ most_list }
        requires render_limit { render ≤ most_render }
        ensures exact { result ≡ layout_at place bin records uniforms render slot }
        ensures apart { StandApart result bin records uniforms render }
    {
        let records_start = round_up(bin as u64, 16);
        let uniforms_start = round_up(records_start + records as u64, 16);
        let render_start = round_up(uniforms_start + uniforms as u64, 16);
        let end = render_start + render;
        Layout {
            place,
            bin: 0,
            records: records_start as u32,
            uniforms: uniforms_start as u32,
            render: render_start as u32,
            end: end as u32,
            slot,
        }
    }

    /// The layout of the file's first job, whose lists begin where the lists' region does, or `None`
    /// exactly where their end is past the region. Sizes are in bytes, as for `at`.
    pub fn of(
        regions: &Regions,
        bin: u32,
        records: u32,
        uniforms: u32,
        render: u64,
        slot: u32,
    ) -> Option<Layout>
        requires place_limit { regions.now.lists_place ≤ most_memory }
        requires size_limit { regions.now.lists_size ≤ most_memory }
        requires slot_limit { slot ≤ most_memory }
        requires bin_limit { bin ≤ most_list }
        requires records_limit { records ≤ most_list }
        requires uniforms_limit { uniforms ≤ most_list }
        requires render_limit { render ≤ most_render }
        ensures exact { SomeIff result
            (lists_end bin records uniforms render ≤ regions.now.lists_size)
            (layout_for regions.now bin records uniforms render slot) }
        ensures apart { IfSome result (λ layout. StandApart layout bin records uniforms render) }
    {
        let layout = Layout::at(regions.lists_place, bin, records, uniforms, render, slot);
        if layout.end > regions.lists_size {
            return None;
        }
        Some(layout)
    }

    /// The layout of a further job, whose lists begin where these end, rounded up to 16, or `None`
    /// exactly where their end is past the lists' region. Sizes are in bytes, as for `at`.
    #[tactic(auto, unfolding(crate::specs::Layout::begins_after))]
    pub fn after(
        &self,
        regions: &Regions,
        bin: u32,
        records: u32,
        uniforms: u32,
        render: u64,
        slot: u32,
    ) -> Option<Layout>
        requires place_limit { regions.now.lists_place ≤ most_memory }
        requires size_limit { regions.now.lists_size ≤ most_memory }
        requires bin_limit { bin ≤ most_list }
        requires records_limit { records ≤ most_list }
        requires uniforms_limit { uniforms ≤ most_list }
        requires render_limit { render ≤ most_render }
        ensures exact { SomeIff result
            (begins_after self.now.place self.now.end + lists_end bin records uniforms render ≤ region_end regions.now)
            (layout_at (begins_after self.now.place self.now.end) bin records uniforms render slot) }
        ensures apart { IfSome result (λ layout. StandApart layout bin records uniforms render) }
    {
        let place = round_up(self.place as u64 + self.end as u64, 16);
        let region_end = regions.lists_place as u64 + regions.lists_size as u64;
        if place > region_end {
            return None;
        }
        let layout = Layout::at(place as u32, bin, records, uniforms, render, slot);
        if place + layout.end as u64 > region_end {
            return None;
        }
        Some(layout)
    }
}
