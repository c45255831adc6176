// The C interface (include/callbridge.h): every call of a host, thin over what the library answers. specs/Interface says what each call
// tells. `callbridge_c` hands these functions to C: Rattle's crates cite this one, and none can cite a static library.
#![tactic(auto)]

ghost use Rattle.std.specs.Prelude.{◌≡◌, [], ◌++◌, ◌≤◌, length, drop};
ghost use Rattle.description.specs.Description.{arguments_in};
ghost use Rattle.form.specs.Reading.{refusal_in};
ghost use Rattle.types.specs.Wrong.{refusal_for};
ghost use Rattle.questions.specs.Questions.{extent_answer};
ghost use Rattle.questions.specs.Runs.{classes_answer, run_answer};
ghost use Rattle.questions.specs.Offsets.{offsets_refusal, offsets_after};
ghost use Rattle.layout.specs.Layout.{layout_answer};
ghost use Rattle.layout.specs.Lists.{list_count, filled};
ghost use Rattle.layout.specs.Verdict.{verdict};
ghost use Rattle.layout.specs.StackNeeds.{stack_answer};
ghost use Rattle.moving.specs.Images.{amd64};
ghost use Rattle.tidying.specs.Answers.{tidy_refusal, length_answer, tidy_after};
ghost use Rattle.moving.specs.Answers.{place_answer, registers_after, upper_after, stack_after, gather_answer, values_after};
ghost use Rattle.returning.specs.Answers.{put_answer, image_after, upper_after as returned_upper, take_answer, value_after};
ghost use Rattle.station.specs.Paper.{kcb};
ghost use Rattle.station.specs.Attachment.{new_station, attach_seat, detach_seat, change_seat};
ghost use Rattle.walk.specs.Orders.{asking};
ghost use Rattle.walk.specs.Steps.{open_answer, step_out};
ghost use Rattle.finishing.specs.Rest.{asking_rest, finish_out};
ghost use Rattle.walk.specs.Show.{shown_answer};
ghost use Rattle.listing.specs.Listing.{listing};
ghost use Rattle.flat.specs.Stations.{station_meant, flat_station, walk_meant};
ghost use Rattle.callbridge.specs.Outcome.{left_in};
ghost use Rattle.callbridge.specs.TypeCalls.{extent_given, classes_given, run_part, run_refusal};
ghost use Rattle.callbridge.specs.LayoutCalls.{layout_given, list_given, flat_at};
ghost use Rattle.callbridge.specs.StackCalls.{need_given};
ghost use Rattle.callbridge.specs.TidyingCalls.{tidied_given};
ghost use Rattle.callbridge.specs.MovingCalls.{placed_given, gathered_given};
ghost use Rattle.callbridge.specs.ReturningCalls.{put_given, taken_given};
ghost use Rattle.callbridge.specs.StationCalls.{attach_given, detach_given, freed_station, change_given};
ghost use Rattle.callbridge.specs.WalkCalls.{open_given, step_given, finish_given, shown_part, shown_refusal};

use flat::{
    Classes, Gathered, Image, Layout, Part, Placed, Placement, StackNeed, Station, Tidied, Walk,
};
use form::Refusal;
use layout::{Described, Laying};
use types::Extent;
use units::Bytes;
use walk::Shown;

// The refusal that a call answers, number 0 for none; and what is given is stored: "A refusal returns its number only and writes nothing"
// (document 01).
fn give<T: Copy>(answer: Result<T, Refusal>, lent: &mut T) -> Refusal
    ensures { (result ≡ refusal_in answer) × (lent.new ≡ left_in answer lent.old) }
{
    match answer {
        Ok(given) => {
            *lent = given;
            form::refusal_of(0)
        }
        Err(refusal) => refusal,
    }
}

// The number of arguments, of any bytes: 0 where there is no such byte.
fn arguments_of(d: &[u8]) -> usize
    ensures { result ≡ arguments_in d.now }
{
    d.get(8).map_or(0, |&count| usize::from(count))
}

// The flat record of each argument into the list, and that of the call as a whole. No generic function does this and `layout::lay_out`: its
// contract would have to speak of any conversion of a record.
fn lay_out(d: &[u8], list: &mut [Placement]) -> Result<Layout, Refusal>
    ensures { (result ≡ list_given d.now (length list.old))
        × (list.new ≡ filled (flat_at d.now) (list_count d.now (length list.old)) list.old) }
{
    let mut table = [0u32; 64];
    let whole = layout::begin_with(d, list.len(), &mut table)?;
    let described = Described {
        bytes: d,
        table: &table,
    };
    let arguments = described.arguments();
    let mut laying = Laying::fresh(whole.hidden);
    for i in 0..arguments {
        list[i] = Placement::from(described.place_argument(i, &mut laying));
    }
    Ok(Layout::of(whole, arguments))
}

// CB_VERSION.
pub fn cb_version() -> u32
    ensures { result ≡ 5 }
{
    flat::version()
}

// The verdict on a description.
pub fn cb_check(d: &[u8]) -> Refusal
    ensures { result ≡ refusal_for d.now (verdict d.now) }
{
    form::refusal_in(layout::check(d))
}

// Size and alignment of a type.
pub fn cb_type_extent(d: &[u8], asked: u8, extent: &mut Extent) -> Refusal
    ensures { (result ≡ refusal_in (extent_given (extent_answer d.now asked)))
        × (extent.new ≡ left_in (extent_given (extent_answer d.now asked)) extent.old) }
{
    give(questions::type_extent(d, asked), extent)
}

// The classes of a type.
pub fn cb_type_classes(d: &[u8], asked: u8, classes: &mut Classes) -> Refusal
    ensures { (result ≡ refusal_in (classes_given (classes_answer d.now asked)))
        × (classes.new ≡ left_in (classes_given (classes_answer d.now asked)) classes.old) }
{
    give(
        questions::type_classes(d, asked).map(Classes::from),
        classes,
    )
}

// The members of a type, as a part of the description; the empty part for a refusal.
pub fn cb_member_run(d: &[u8], asked: u8, part: &mut Part) -> Refusal
    ensures { (result ≡ run_refusal (run_answer d.now asked)) × (part.new ≡ run_part (run_answer d.now asked)) }
{
    let run = questions::run_at(d, asked).map(|run| match run {
        Some((offset, count)) => flat::part_of(Image::Description as u8, offset, Bytes(count)),
        None => flat::nowhere(),
    });
    *part = flat::nowhere();
    give(run, part)
}

// The offsets of a type's members into the list; entries past them stay.
pub fn cb_member_offsets(d: &[u8], asked: u8, offsets: &mut [usize]) -> Refusal
    ensures { (result ≡ refusal_for d.now (offsets_refusal d.now asked (length offsets.old)))
        × (offsets.new ≡ offsets_after d.now asked offsets.old) }
{
    form::refusal_in(questions::member_offsets(d, asked, offsets))
}

// The call as a whole.
pub fn cb_layout_of(d: &[u8], layout: &mut Layout) -> Refusal
    ensures { (result ≡ refusal_in (layout_given (arguments_in d.now) (layout_answer d.now)))
        × (layout.new ≡ left_in (layout_given (arguments_in d.now) (layout_answer d.now)) layout.old) }
{
    let arguments = arguments_of(d);
    give(
        layout::layout_of(d).map(|whole| Layout::of(whole, arguments)),
        layout,
    )
}

// The call as a whole, and one record for each argument into the list; entries past them stay.
pub fn cb_lay_out(d: &[u8], layout: &mut Layout, list: &mut [Placement]) -> Refusal
    ensures { (result ≡ refusal_in (list_given d.now (length list.old)))
        × ((layout.new ≡ left_in (list_given d.now (length list.old)) layout.old)
        × (list.new ≡ filled (flat_at d.now) (list_count d.now (length list.old)) list.old)) }
{
    give(lay_out(d, list), layout)
}

// Whether an argument goes to the stack, told at the first that does.
pub fn cb_needs_stack(d: &[u8], need: &mut StackNeed) -> Refusal
    ensures { (result ≡ refusal_in (need_given (stack_answer d.now)))
        × (need.new ≡ left_in (need_given (stack_answer d.now)) need.old) }
{
    give(layout::needs_stack(d).map(StackNeed::from), need)
}

// The layout as text; the answer is its length.
pub fn cb_write_listing(d: &[u8], out: &mut [u8; 8192]) -> usize
    ensures { (result ≡ length (listing d.now)) × (result ≤ 4540)
        × (out.new ≡ listing d.now ++ drop (length (listing d.now)) out.old) }
{
    listing::write_listing(d, out)
}

// The length of the tidy form.
pub fn cb_tidy_length(d: &[u8], tidied: &mut Tidied) -> Refusal
    ensures { (result ≡ refusal_in (tidied_given (length_answer d.now)))
        × (tidied.new ≡ left_in (tidied_given (length_answer d.now)) tidied.old) }
{
    give(
        tidying::tidy_length(d).map(|length| Tidied { length }),
        tidied,
    )
}

// The tidy form of the description.
pub fn cb_tidy(d: &[u8], out: &mut [u8]) -> Refusal
    ensures { (result ≡ refusal_for d.now (tidy_refusal d.now (length out.old)))
        × (out.new ≡ tidy_after d.now out.old) }
{
    form::refusal_in(tidying::tidy(d, out))
}

// Values into the three images.
pub fn cb_place_values(
    d: &[u8],
    hidden: u64,
    values: &[u8],
    registers: &mut [u8],
    upper: &mut [u8],
    stack: &mut [u8],
    placed: &mut Placed,
) -> Refusal
    ensures { (result ≡ refusal_in (placed_given (place_answer amd64 d.now hidden values.now (length registers.old) (length upper.old) (length stack.old))))
        × ((placed.new ≡ left_in (placed_given (place_answer amd64 d.now hidden values.now (length registers.old) (length upper.old) (length stack.old))) placed.old)
        × ((registers.new ≡ registers_after amd64 d.now hidden values.now registers.old upper.old stack.old)
        × ((upper.new ≡ upper_after amd64 d.now hidden values.now registers.old upper.old stack.old)
        × (stack.new ≡ stack_after amd64 d.now hidden values.now registers.old upper.old stack.old)))) }
{
    let answer = moving::place_values(d, hidden, values, registers, upper, stack);
    give(answer.map(|vector| Placed { vector }), placed)
}

// Values out of the three images.
pub fn cb_gather_values(
    d: &[u8],
    registers: &[u8],
    upper: &[u8],
    stack: &[u8],
    values: &mut [u8],
    gathered: &mut Gathered,
) -> Refusal
    ensures { (result ≡ refusal_in (gathered_given (gather_answer amd64 d.now registers.now upper.now stack.now (length values.old))))
        × ((gathered.new ≡ left_in (gathered_given (gather_answer amd64 d.now registers.now upper.now stack.now (length values.old))) gathered.old)
        × (values.new ≡ values_after amd64 d.now registers.now upper.now stack.now values.old)) }
{
    let answer = moving::gather_values(d, registers, upper, stack, values);
    give(answer.map(|hidden| Gathered { hidden }), gathered)
}

// A returned value into the two return images.
pub fn cb_put_returned(
    d: &[u8],
    hidden: u64,
    value: &[u8],
    image: &mut [u8],
    upper: &mut [u8],
) -> Refusal
    ensures { (result ≡ put_given (put_answer d.now hidden value.now (length image.old) (length upper.old)))
        × ((image.new ≡ image_after d.now hidden value.now image.old upper.old)
        × (upper.new ≡ returned_upper d.now hidden value.now image.old upper.old)) }
{
    form::refusal_in(returning::put_returned(d, hidden, value, image, upper))
}

// A returned value out of the two return images.
pub fn cb_take_returned(
    d: &[u8],
    image: &[u8],
    upper: &[u8],
    value: &mut [u8],
    gathered: &mut Gathered,
) -> Refusal
    ensures { (result ≡ refusal_in (taken_given (take_answer d.now image.now upper.now (length value.old))))
        × ((gathered.new ≡ left_in (taken_given (take_answer d.now image.now upper.now (length value.old))) gathered.old)
        × (value.new ≡ value_after d.now image.now upper.now value.old)) }
{
    let answer = returning::take_returned(d, image, upper, value);
    give(answer.map(|address| Gathered { hidden: address }), gathered)
}

// A station that nothing was ever attached to.
pub fn cb_new_station() -> Station
    ensures { result ≡ flat_station new_station }
{
    Station::from(station::new_station())
}

// The description into the seat.
pub fn cb_attach(station: &mut Station, seat: &mut [u8], d: &[u8]) -> Refusal
    ensures { (result ≡ refusal_in (attach_given station.old seat.old d.now))
        × ((station.new ≡ left_in (attach_given station.old seat.old d.now) station.old)
        × (seat.new ≡ attach_seat kcb (station_meant station.old) seat.old d.now)) }
{
    let mut attached = station::Station::from(*station);
    let answer = station::attach(&mut attached, seat, d);
    give(answer.map(|()| Station::from(attached)), station)
}

// The seat emptied.
pub fn cb_detach(station: &mut Station, seat: &mut [u8]) -> Refusal
    ensures { (result ≡ refusal_in (detach_given station.old seat.old))
        × ((station.new ≡ left_in (detach_given station.old seat.old) station.old)
        × (seat.new ≡ detach_seat (station_meant station.old) seat.old)) }
{
    let mut attached = station::Station::from(*station);
    let answer = station::detach(&mut attached, seat);
    give(answer.map(|()| Station::from(attached)), station)
}

// The seat emptied, and the description into it: the one call where a refusal writes.
pub fn cb_change(station: &mut Station, seat: &mut [u8], d: &[u8]) -> Refusal
    ensures { (result ≡ refusal_in (change_given station.old seat.old d.now))
        × ((station.new ≡ left_in (change_given station.old seat.old d.now) (freed_station station.old seat.old))
        × (seat.new ≡ change_seat kcb (station_meant station.old) seat.old d.now)) }
{
    cb_detach(station, seat);
    cb_attach(station, seat, d)
}

// A walk before the first unnamed argument.
pub fn cb_open_walk(station: &Station, seat: &[u8], walk: &mut Walk) -> Refusal
    ensures { (result ≡ refusal_in (open_given (open_answer kcb (station_meant station.now) seat.now)))
        × (walk.new ≡ left_in (open_given (open_answer kcb (station_meant station.now) seat.now)) walk.old) }
{
    let answer = walk::open_walk(station::Station::from(*station), seat);
    give(answer.map(Walk::from), walk)
}

// The next argument's bytes, and the walk behind it.
pub fn cb_step(
    station: &Station,
    seat: &[u8],
    walk: &mut Walk,
    registers: &[u8],
    stack: &[u8],
    asked: u8,
    out: &mut [u8],
) -> Refusal
    ensures { (result ≡ refusal_in (step_given station.now seat.now walk.old (asking registers.now stack.now asked out.old)))
        × ((walk.new ≡ left_in (step_given station.now seat.now walk.old (asking registers.now stack.now asked out.old)) walk.old)
        × (out.new ≡ step_out kcb (station_meant station.now) seat.now (walk_meant walk.old) (asking registers.now stack.now asked out.old))) }
{
    let attached = station::Station::from(*station);
    let mut moved = walk::Walk::from(*walk);
    let answer = walk::step(&attached, seat, &mut moved, registers, stack, asked, out);
    give(answer.map(|()| Walk::from(moved)), walk)
}

// All remaining arguments' bytes, packed, and the walk at its end.
pub fn cb_finish_walk(
    station: &Station,
    seat: &[u8],
    walk: &mut Walk,
    registers: &[u8],
    stack: &[u8],
    asked: &[u8],
    out: &mut [u8],
) -> Refusal
    ensures { (result ≡ refusal_in (finish_given station.now seat.now walk.old (asking_rest registers.now stack.now asked.now out.old)))
        × ((walk.new ≡ left_in (finish_given station.now seat.now walk.old (asking_rest registers.now stack.now asked.now out.old)) walk.old)
        × (out.new ≡ finish_out kcb (station_meant station.now) seat.now (walk_meant walk.old) (asking_rest registers.now stack.now asked.now out.old))) }
{
    let attached = station::Station::from(*station);
    let mut ended = walk::Walk::from(*walk);
    let answer = finishing::finish_walk(&attached, seat, &mut ended, registers, stack, asked, out);
    give(answer.map(|()| Walk::from(ended)), walk)
}

// Where the next argument lies; the empty part for a refusal.
pub fn cb_show(
    station: &Station,
    seat: &[u8],
    walk: &Walk,
    registers: &[u8],
    stack: &[u8],
    asked: u8,
    part: &mut Part,
) -> Refusal
    ensures { (result ≡ shown_refusal (shown_answer kcb (station_meant station.now) seat.now (walk_meant walk.now) (asking registers.now stack.now asked [])))
        × (part.new ≡ shown_part (shown_answer kcb (station_meant station.now) seat.now (walk_meant walk.now) (asking registers.now stack.now asked []))) }
{
    let attached = station::Station::from(*station);
    let answer = walk::shown_at(
        attached,
        seat,
        walk::Walk::from(*walk),
        registers,
        stack,
        asked,
    );
    let shown = answer.map(|shown| match shown {
        Some(Shown::Registers(lies)) => flat::part_of(
            Image::Registers as u8,
            lies.offset,
            lies.length,
        ),
        Some(Shown::Stack(lies)) => flat::part_of(Image::Stack as u8, lies.offset, lies.length),
        None => flat::nowhere(),
    });
    *part = flat::nowhere();
    give(shown, part)
}
