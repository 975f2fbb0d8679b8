// The script that a seed and a number of steps make.
ghost use Rattle.std.specs.Prelude.{◌≡◌, ◌<◌, ◌≤◌, ◌+◌, ◌-◌, ◌*◌, ◌/◌, ◌%◌, ◌^◌, ◌++◌, ◌∷◌, [], IfOk, OnOk, codes, decimal, length, slice_index};
ghost use Rattle.std.specs.String.{string_bytes};
ghost use Rattle.wiki_model.specs.Generator.{next_seed, stirred, step_lines, after_step, before_stirring};
ghost use Rattle.script_generator.specs.Stir.{IsWithin, IsBelow, draws_by, stirred_of, at_text, edit_text, apply_text, view_text, carry_text, position_text, letter, carried, position, step_text, step_bytes, last_seed, after_by};

use farm_base::Memory;
use std::alloc::Global;

// What is known between two steps.
#[derive(Clone, Copy)]
struct Stirring {
    seed: u64,
    // Home's reading, in milliseconds.
    home: u64,
    // The revision of each title.
    revisions: [u64; 8],
    // How often each client wrote.
    wrote: [u64; 5],
    // How many messages there are.
    messages: u64,
}

// What a step draws of the seed, in this order.
#[derive(Clone, Copy)]
struct Draws {
    home: u64,
    west: u64,
    kind: u64,
    client: u64,
    title: u64,
    word: u64,
    replica: u64,
    // The seed after these.
    seed: u64,
}

/// The script of a seed and a number of steps: for the same two always the same. It is a script of the grammar if the
/// seed is below 10^19 and the steps are at most 100,000.
pub fn stir(alloc: Global, seed: u64, steps: u32) -> Result<Vec<u8>, Memory>
    ensures { IfOk result (λ text. text.items ≡ stirred seed steps) }
{
    let mut text = Vec::new(alloc);
    text.extend_from_slice(b"farm 3,1 2,1 0\n")?;
    let mut state = before_stirring(seed);
    for i in 0..steps {
        let done = u64::from(i);
        let draws = draw_all(state.seed);
        let lines = step_lines(alloc, done, &state, &draws)?;
        text.extend_from_slice(lines.as_bytes())?;
        state = after_step(state, &draws, done);
    }
    text.extend_from_slice(b"end\n")?;
    Ok(text)
}

fn before_stirring(seed: u64) -> Stirring
    ensures value { stirred_of result ≡ before_stirring seed }
    ensures within { IsWithin 0 (stirred_of result) }
{
    Stirring {
        seed,
        home: 1_000,
        revisions: [0; 8],
        wrote: [0; 5],
        messages: 0,
    }
}

// The two lines of a step after so many.
#[tactic(auto, using(crate::proofs::Stirs::step_lines_are))]
fn step_lines(alloc: Global, done: u64, state: &Stirring, draws: &Draws) -> Result<String, Memory>
    requires early { done < 2 ^ 32 }
    requires within { IsWithin done (stirred_of state.now) }
    requires drawn { draws.now ≡ draws_by state.now.seed }
    requires below { IsBelow draws.now }
    ensures { IfOk result (λ s. string_bytes s ≡ step_lines (done + 1) (stirred_of state.now)) }
{
    let text = step_bytes(alloc, done, state, draws)?;
    Ok(text)
}

fn step_bytes(alloc: Global, done: u64, state: &Stirring, draws: &Draws) -> Result<String, Memory>
    requires early { done < 2 ^ 32 }
    requires within { IsWithin done (stirred_of state.now) }
    requires below { IsBelow draws.now }
    ensures { IfOk result (λ s. string_bytes s ≡ step_bytes (done + 1) state.now draws.now) }
{
    let home = state.home + draws.home;
    let mut text = at_line(alloc, home, home + draws.west - 600)?;
    let line = step_text(alloc, done + 1, state, draws)?;
    text.push_str(line.as_str())?;
    Ok(text)
}

fn next_seed(seed: u64) -> u64
    ensures { result ≡ next_seed seed }
{
    let product = u128::from(seed) * 6_364_136_223_846_793_005 + 1_442_695_040_888_963_407;
    (product % 18_446_744_073_709_551_616) as u64
}

// The number below the limit that a seed gives.
fn drawn(seed: u64, limit: u64) -> u64
    requires { 0 < limit }
    ensures value { result ≡ seed / 2 ^ 33 % limit }
    ensures within { result < limit }
{
    seed / 8_589_934_592 % limit
}

fn draw_all(seed: u64) -> Draws
    ensures drawn { result ≡ draws_by seed }
    ensures below { IsBelow result }
{
    let first = next_seed(seed);
    let second = next_seed(first);
    let third = next_seed(second);
    let fourth = next_seed(third);
    let fifth = next_seed(fourth);
    let sixth = next_seed(fifth);
    let seventh = next_seed(sixth);
    Draws {
        home: drawn(first, 1_500),
        west: drawn(second, 1_201),
        kind: drawn(third, 12),
        client: drawn(fourth, 5),
        title: drawn(fifth, 8),
        word: drawn(sixth, 1_000),
        replica: drawn(seventh, 2),
        seed: seventh,
    }
}

// The line of a step after its readings.
fn step_text(alloc: Global, number: u64, state: &Stirring, draws: &Draws) -> Result<String, Memory>
    requires below { IsBelow draws.now }
    requires home { state.now.home < 2 ^ 63 }
    ensures { IfOk result (λ s. string_bytes s ≡ step_text number state.now draws.now) }
{
    if draws.kind < 2 {
        edit_line(alloc, number, state, draws)
    } else if draws.kind < 4 {
        beat_line(alloc)
    } else if draws.kind < 6 {
        apply_line(alloc, "home", draws.replica)
    } else if draws.kind == 6 {
        apply_line(alloc, "west", draws.replica)
    } else if draws.kind == 7 {
        carry_line(alloc, state, draws)
    } else if draws.kind == 8 {
        view_line(alloc, "home", "-", draws)
    } else if draws.kind < 11 {
        view_line(alloc, "west", "-", draws)
    } else {
        last_view(alloc, state, draws)
    }
}

// A view with the position that its client last wrote.
fn last_view(alloc: Global, state: &Stirring, draws: &Draws) -> Result<String, Memory>
    requires below { IsBelow draws.now }
    requires home { state.now.home < 2 ^ 63 }
    ensures { IfOk result (λ s. string_bytes s ≡ view_text (codes "west") (1 + draws.now.client)
        (position state.now draws.now) draws.now.word (letter draws.now)) }
{
    let position = last_position(alloc, state, draws)?;
    view_line(alloc, "west", position.as_str(), draws)
}

fn at_line(alloc: Global, home: u64, west: u64) -> Result<String, Memory>
    ensures { IfOk result (λ s. string_bytes s ≡ at_text home west) }
{
    Ok(format!(in alloc; "at {home} {west}\n")?)
}

fn beat_line(alloc: Global) -> Result<String, Memory>
    ensures { IfOk result (λ s. string_bytes s ≡ codes "beat\n") }
{
    Ok(String::from_str(alloc, "beat\n")?)
}

fn edit_line(alloc: Global, number: u64, state: &Stirring, draws: &Draws) -> Result<String, Memory>
    requires below { IsBelow draws.now }
    ensures { IfOk result (λ s. string_bytes s ≡ edit_text number (1 + draws.now.client)
        (letter draws.now) (slice_index state.now.revisions draws.now.title)) }
{
    let base = state.revisions[draws.title as usize];
    edit_text(
        alloc,
        number,
        1 + draws.client,
        title_word(draws.title),
        base,
    )
}

fn edit_text(
    alloc: Global,
    number: u64,
    client: u64,
    title: &str,
    base: u64,
) -> Result<String, Memory>
    ensures { IfOk result (λ s. string_bytes s ≡ edit_text number client title.now base) }
{
    Ok(format!(in alloc; "edit {client} t{number} {title} {base} v{number}\n")?)
}

fn apply_line(alloc: Global, region: &str, replica: u64) -> Result<String, Memory>
    ensures { IfOk result (λ s. string_bytes s ≡ apply_text region.now replica) }
{
    Ok(format!(in alloc; "apply {region} {replica} 50\n")?)
}

fn view_line(alloc: Global, region: &str, cookie: &str, draws: &Draws) -> Result<String, Memory>
    requires below { IsBelow draws.now }
    ensures { IfOk result (λ s. string_bytes s ≡ view_text region.now (1 + draws.now.client)
        cookie.now draws.now.word (letter draws.now)) }
{
    let client = 1 + draws.client;
    view_text(
        alloc,
        region,
        client,
        cookie,
        draws.word,
        title_word(draws.title),
    )
}

fn view_text(
    alloc: Global,
    region: &str,
    client: u64,
    cookie: &str,
    word: u64,
    title: &str,
) -> Result<String, Memory>
    ensures { IfOk result (λ s. string_bytes s ≡ view_text region.now client cookie.now word title.now) }
{
    Ok(format!(in alloc; "view {region} {client} {cookie} {word} {title}\n")?)
}

// A message that was issued is carried; a beat while there is none.
fn carry_line(alloc: Global, state: &Stirring, draws: &Draws) -> Result<String, Memory>
    ensures { IfOk result (λ s. string_bytes s ≡ carried state.now draws.now) }
{
    if state.messages == 0 {
        return beat_line(alloc);
    }
    let message = drawn(next_seed(draws.seed), state.messages);
    carry_text(alloc, 1 + message)
}

fn carry_text(alloc: Global, number: u64) -> Result<String, Memory>
    ensures { IfOk result (λ s. string_bytes s ≡ carry_text number) }
{
    Ok(format!(in alloc; "carry {number}\n")?)
}

// The position that the client last wrote, as a cookie.
fn last_position(alloc: Global, state: &Stirring, draws: &Draws) -> Result<String, Memory>
    requires below { IsBelow draws.now }
    requires home { state.now.home < 2 ^ 63 }
    ensures { IfOk result (λ s. string_bytes s ≡ position state.now draws.now) }
{
    let wrote = state.wrote[draws.client as usize];
    if wrote == 0 {
        return Ok(String::from_str(alloc, "-")?);
    }
    position_text(alloc, wrote, (state.home + draws.home) / 1_000)
}

fn position_text(alloc: Global, index: u64, seconds: u64) -> Result<String, Memory>
    ensures { IfOk result (λ s. string_bytes s ≡ position_text index seconds) }
{
    Ok(format!(in alloc; "{index}@{seconds}")?)
}

fn title_word(title: u64) -> &'static str
    requires { title < 8 }
    ensures { result.now ≡ (65 + title) ∷ [] }
{
    match title {
        0 => "A",
        1 => "B",
        2 => "C",
        3 => "D",
        4 => "E",
        5 => "F",
        6 => "G",
        _ => "H",
    }
}

// The state after a step, of which so many were done before.
#[tactic(auto, using(crate::proofs::Stirs::after_is, crate::proofs::Stirs::within_on))]
fn after_step(state: Stirring, draws: &Draws, done: u64) -> Stirring
    requires drawn { draws.now ≡ draws_by state.seed }
    requires below { IsBelow draws.now }
    requires early { done < 2 ^ 32 }
    requires within { IsWithin done (stirred_of state) }
    ensures value { stirred_of result ≡ after_step (stirred_of state) }
    ensures within { IsWithin (done + 1) (stirred_of result) }
{
    after_by(state, draws, done)
}

fn after_by(state: Stirring, draws: &Draws, done: u64) -> Stirring
    requires below { IsBelow draws.now }
    requires early { done < 2 ^ 32 }
    requires within { IsWithin done (stirred_of state) }
    ensures { stirred_of result ≡ after_by state draws.now }
{
    let mut after = state;
    after.seed = last_seed(&state, draws);
    after.home = state.home + draws.home;
    if draws.kind < 2 {
        after.revisions[draws.title as usize] += 1;
        after.wrote[draws.client as usize] += 1;
        after.messages += 2;
    }
    after
}

// The seed after all draws of a step: one more if a message is picked.
fn last_seed(state: &Stirring, draws: &Draws) -> u64
    ensures { result ≡ last_seed state.now draws.now }
{
    if draws.kind == 7 && 0 < state.messages {
        next_seed(draws.seed)
    } else {
        draws.seed
    }
}
