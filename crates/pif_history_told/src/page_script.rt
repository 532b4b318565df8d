/// The script of a verdict, up to what all pages have.
pub const HEAD: &str =
    r#"// The names and the places that comments give, and the name of the file; all else is verdicts and runs.
const names = (every.find(one => 'names' in one) || {names: {}}).names, {file} = every.find(one => 'file' in one && one.file !== '-') || {};
const places = (every.find(one => 'places' in one) || {places: {}}).places;
const objects = every.filter(one => !('names' in one || 'places' in one || 'file' in one));
const placed = line => places[line] ? ', ' + places[line] : '';
const full = name => names[name] ? name + ' ' + names[name] : name;
// What POSIX says of a history that isn't legal, if it was asked; behind it come a verdict and a run with its rules.
const asked = objects.findIndex(one => 'posix' in one), posix = objects[asked];
const first = objects[0], [verdict, ...lines] = objects.slice(asked + 1);
// Whether the verdict is of a line behind the run.
const isWrong = verdict.text !== undefined;

// The steps of the run, in order: each line of the history, behind the moves that come before it.
const run = [];
for (const line of lines) {
  for (const move of line.moves)
    run.push({kind: 'end' in move ? 'ends' : 'move', thread: move.move || move.end, line: line.line, by: move});
  const words = line.text.split(' ');
  const isOf = ['begin', 'answer', 'dying', 'end', 'rests', 'prio', 'process'].includes(words[0]);
  run.push({kind: words[0], thread: isOf ? words[1] : null, line: line.line, text: line.text, by: line});
}

// Numbers that may stand in a line of this text.
const numbersOf = (text, numbers) => numbers.map(text.startsWith('answer') ? named : String).join(', ') || 'none';

// The line of the first verdict, if the run shows it by further rules.
let blamed = -1;

// What else is told of a step and of the state behind it, in words and as tables.
const moreWords = () => [], moreTables = () => [];

// WHAT IS CONCERNED, of an illegal history

function mutexesOf(words) {
  return words.map(word => binding.get(word) || word).filter(word => /^m\d+$/.test(word));
}
function concerned() {
  const words = verdict.text.split(' '), thread = words[1];
  const own = verdict.began ? verdict.began.text.split(' ').slice(2) : words[0] === 'begin' ? words.slice(2) : [];
  const found = new Set(mutexesOf(own));
  const owned = name => { for (const mutex of last.mutexes.values()) if (mutex.owner === name) found.add(mutex.name); };
  if (words[0] === 'prio' || !found.size) owned(thread);
  if (!found.size) for (const bar of bars) if (bar.thread === thread) { found.clear(); mutexesOf(bar.words).forEach(m => found.add(m)); }
  for (const mutex of found)
    for (const other of last.threads.values()) if (waitsFor(other) === mutex) owned(other.name);
  for (const [cond, mutex] of binding) if (found.has(mutex)) found.add(cond);
  for (const {words: [call, ...on]} of bars)
    if (['wait', 'timedwait'].includes(call) && found.has(lastNamed(on, 'm'))) found.add(lastNamed(on, 'c'));
  return found;
}
function chosenSteps() {
  const whole = steps.map((step, place) => place);
  if (!isWrong || at('all').checked) return whole;
  const about = concerned(), touches = words => words.some(word => about.has(word));
  if (!about.size) return whole;
  const isFree = step => !step.open.some(touches) && !step.owned.some(name => about.has(name));
  const failing = bars.find(fails), isOwn = place => failing && place >= failing.from && steps[place].thread === failing.thread;
  const from = Math.min(steps.map(isFree).lastIndexOf(true), failing ? failing.from - 1 : steps.length);
  const kept = whole.filter(place => place > from);
  const threads = new Set(kept.filter(place => touches(steps[place].words)).map(place => steps[place].thread));
  threads.add(verdict.text.split(' ')[1]);
  const ofThread = ['dying', 'end', 'ends', ...SEEN, 'process'], ofAll = ['tick', 'halted', 'resumed'];
  return kept.filter(place => isOwn(place) || touches(steps[place].words) || ofAll.includes(steps[place].kind)
    || (ofThread.includes(steps[place].kind) && threads.has(steps[place].thread)));
}

const titleOf = place => steps[place].text ? 'line ' + steps[place].line + ': ' + steps[place].text
  : steps[place].thread + (steps[place].kind === 'ends' ? ' ends' : ' goes on') + ', before line ' + steps[place].line;
function drawWrong() {
  const x = middle(shown.length), thread = verdict.text.split(' ')[1], y = lanes.includes(thread) ? laneOf(thread) : TOP;
  add('line', {class: 'wrong', id: 'wrong', x1: x, x2: x, y1: 16, y2: TOP + lanes.length * LANE});
  drawCross(x, y);
  add('text', {class: 'wrong', x: x - 6, y: 12}, wrongText());
}
function wrongText() {
  const words = verdict.text.split(' ');
  return verdict.line + ': ' + (words[0] === 'answer' ? words.slice(0, 2).join(' ') + ' ' + named(words[2]) : verdict.text);
}
"#;

/// The script of a verdict, behind what all pages have.
pub const TAIL: &str = r#"// THE VERDICT

function whyOf(verdict) {
  const why = [], but = verdict.but_for;
  if (but) why.push('but for ' + but.line + ': ' + but.answer + ' of ' + but.call + ', which no page of POSIX has');
  if (verdict.refused) why.push('refused ' + verdict.refused + ', whatever was answered');
  if (verdict.possible) why.push('possible there: ' + numbersOf(verdict.text, verdict.possible));
  if (verdict.possible === null) why.push('possible there: undecided');
  if (verdict.began) why.push('its call began at ' + verdict.began.line + placed(verdict.began.line) + ': ' + verdict.began.text);
  if (verdict.in_the_way) why.push('in the way: ' + verdict.in_the_way.replace(/began at (\d+)/, (all, line) => all + placed(line)));
  if (verdict.legal_if) why.push('legal if line ' + verdict.legal_if.line + ' had ' + named(verdict.legal_if.answer));
  if (verdict.open) why.push('open at the end: ' + verdict.open.map(call => call.text.slice(6)).join(', '));
  if (verdict.deadlock) why.push('a deadlock: none of them can be answered');
  if (verdict.found) why.push('found there: ' + numbersOf(verdict.text, verdict.found));
  return why;
}
function posixWords() {
  const beside = word => posix.with ? word + posix.with : '';
  if (posix.posix === 'forbids') return 'POSIX' + beside(' and ') + (posix.with ? ' forbid' : ' forbids') + ' it from ' + posix.line;
  if (posix.posix === 'undefined') return 'POSIX' + beside(' and ') + ' may leave it undefined: ' + posix.line + ': ' + posix.text;
  if (posix.posix === 'undecided') return 'POSIX' + beside(' and ') + ': undecided';
  return 'POSIX allows it' + beside(' with ') + (posix.rules ? ': ' + posix.rules : '') + (posix.least ? '' : ', perhaps fewer');
}
function tell() {
  const calls = {0: 'with no call', 1: '1 call'}[first.calls] || first.calls + ' calls';
  const says = {legal: () => 'legal, ' + calls + ': a run shows all lines', illegal: () => 'illegal at ' + first.line + ': ' + first.text,
    log: () => 'a mistake of the log at ' + first.line + ': ' + first.text,
    undecided: () => (first.legal_up_to ? 'legal up to ' + first.legal_up_to + '; ' : '') + 'undecided from ' + first.line + ': ' + first.text};
  at('verdict').textContent = says[first.verdict]();
  at('file').textContent = file || '';
  document.title = (file ? file + ': ' : '') + says[first.verdict]();
  at('red').hidden = !isWrong && blamed < 0;
  at('red').append(first.verdict === 'undecided' ? 'the line from which on it is undecided' : 'the line that no run has there' + (isWrong ? '' : ', without rules'));
  at('verdict').className = first.verdict;
  const isForbidden = posix && posix.posix === 'forbids';
  const why = posix ? [...(isForbidden ? [] : whyOf(first)), posixWords(), ...whyOf(verdict)] : whyOf(verdict);
  const things = [...last.mutexes.keys(), ...last.conds.keys()].filter(name => names[name]);
  if (things.length) why.push('names: ' + things.map(name => name + ' is ' + names[name]).join(', '));
  if (verdict.verdict !== 'legal') why.push('The run shows the lines before ' + verdict.line + '.');
  else if (posix) why.push('The run shows all lines, by these rules.');
  if (verdict.left_out) why.push('The first ' + verdict.left_out + ' lines of the history are left out.');
  at('why').replaceChildren(...why.map(text => Object.assign(document.createElement('p'), {textContent: text})));
  at('switch').hidden = !isWrong;
}
svg.addEventListener('click', event => {
  const mark = event.target.closest('[data-step]');
  if (mark) choose(Number(mark.dataset.step));
});
// What is at the end of the run stays in sight if there is less room.
let isAtEnd = false;
view.addEventListener('scroll', () => { isAtEnd = view.scrollLeft + view.clientWidth >= view.scrollWidth - 2; draw(); });
window.addEventListener('resize', () => { if (isAtEnd) view.scrollLeft = view.scrollWidth; draw(); });
at('all').addEventListener('change', () => { layOut(); if (chosen >= 0) reveal(chosen); });
at('width').addEventListener('input', () => { width = Number(at('width').value); draw(); });
document.addEventListener('keydown', event => {
  if (event.target.tagName !== 'INPUT' && event.key === 'ArrowLeft') { event.preventDefault(); go(-1); }
  if (event.target.tagName !== 'INPUT' && event.key === 'ArrowRight') { event.preventDefault(); go(1); }
});
take(run);
if (!isWrong && first.text !== undefined) blamed = steps.findIndex(step => step.line === first.line && step.text === first.text);
tell();
layOut();
width = Math.min(64, Math.max(30, Math.floor(view.clientWidth / (shown.length + 5))));
at('width').value = width;
draw();
if (steps.length) {
  const waiting = steps.findIndex(step => step.by.threads.some(thread => waitsFor(thread)));
  const place = isWrong ? shown[shown.length - 1] : [blamed, waiting, verdict.open ? steps.length - 1 : 0].find(place => place >= 0);
  if (verdict.verdict !== 'legal') view.scrollLeft = middle(shown.length);
  choose(place === undefined ? steps.length - 1 : place);
  if (!isWrong) reveal(chosen);
}
</script></body></html>
"#;
