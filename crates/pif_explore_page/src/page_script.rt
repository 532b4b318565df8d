/// The script of an exploration, up to what all pages have.
pub const HEAD: &str = r#"// No line has a name, or is wrong, as in histories.
const names = {}, full = name => name, placed = () => '', isWrong = false, verdict = {}, blamed = -1;
const program = every[0], counts = every[every.length - 1], found = every.slice(1, -1);
const of = kind => found.filter(one => kind in one);
const chosenSteps = () => steps.map((step, place) => place);
const titleOf = place => steps[place].text || steps[place].thread + (steps[place].kind === 'ends' ? ' ends' : ' goes on');

// A step of a schedule, as a step on lanes.
function stepOf(by, k) {
  if (!('text' in by)) return {kind: 'end' in by ? 'ends' : 'move', thread: by.move || by.end, line: k, by};
  const words = by.text.split(' '), isCall = ['begin', 'answer'].includes(words[0]);
  return {kind: isCall || words[0] === 'tick' ? words[0] : 'cell', thread: isCall ? words[1] : /^t\d+$/.test(words[0]) ? words[0] : null,
    line: k, text: by.text, by};
}
// The steps of a row: the state in which all begins, those that lead to it, and those that lead from there back to it.
function stepsOf(row) {
  const start = {kind: 'start', thread: null, line: 0, text: 'the start', by: {...program, whole: true}};
  return [start, ...[...(row.schedule || []), ...(row.again || [])].map((by, k) => stepOf(by, k + 1))];
}

// The values of the cells behind a step, and which of them it changes.
const cellsAt = place => steps.slice(0, place + 1).filter(step => step.by.cells).pop().by.cells;
const changedAt = place => cellsAt(place).map((value, k) => ['x' + (k + 1), value, cellsAt(Math.max(place - 1, 0))[k]])
  .filter(([, value, old]) => value !== old);
const moreWords = place => changedAt(place).map(([name, value]) => name + ' is ' + value);
function moreTables(place) {
  const cells = cellsAt(place), lit = new Set(changedAt(place).map(([name]) => name));
  return cells.length ? [table('cells', ['cell', 'value'], cells.map((value, k) => ['x' + (k + 1), String(value)]), lit)] : [];
}

"#;

/// The script of an exploration, behind what all pages have.
pub const TAIL: &str = r#"// WHAT WAS FOUND

// The parts of an outcome: each thread with its calls, then mutexes and cells.
function partsOf(text) {
  const parts = [];
  for (const part of text.split('; ')) {
    if (/^t\d+( |$)/.test(part)) parts.push(part.replace(/^t\d+ /, '$&\u2003'));
    else if (/^[mx]\d+ /.test(part) && parts.length && /^[mx]\d+ /.test(parts[parts.length - 1])) parts[parts.length - 1] += '; ' + part;
    else if (/^[mx]\d+ /.test(part)) parts.push(part);
    else parts[parts.length - 1] += '; ' + part;
  }
  return parts;
}
const CLAIMS = {kept: 'kept', idle: 'kept: no final state', broken: 'broken', undecided: 'undecided'};
const FAULTS = {
  'race': one => one.thread + ' and ' + one.other + ' access ' + one.cell + ' next, and ' + one.thread + ' writes it',
  'misuse': one => one.thread + ' has made ' + one.call + ', which is undefined or refused',
  'deadlock': one => one.thread + ' waits for a mutex at the end',
  'cycle': one => one.thread + ' is about to lock ' + one.mutex + ', whose owner waits for it',
  'lost wake-up': one => one.thread + ' is blocked on ' + one.cond + ' at the end, of which a signal woke nobody',
  'stuck': one => one.why + ' at the end',
  'livelock': () => 'no final state can be reached from here',
};
const DELAY = one => one.steps === undefined ? 'undecided' : one.steps === null ? 'without bound' : one.steps + ' steps of lower threads';
// Of each row the words of its cells, and whether the first of them is bad.
const rows = [
  ...of('claim').map(one => ({one, head: 'Claims', cells: [CLAIMS[one.verdict], one.claim + ': ' + one.text], bad: one.verdict === 'broken'})),
  ...of('fault').map(one => ({one, head: 'Faults', cells: [one.fault, FAULTS[one.fault](one)], bad: true})),
  ...of('undecided').map(one => ({one, head: 'Faults', cells: [one.undecided, 'undecided'], bad: false})),
  ...of('delay').map(one => ({one, head: 'Delays', cells: [one.delay, DELAY(one)], bad: false})),
  ...of('outcome').map((one, k) => ({one, head: 'Outcomes', cells: [String(k + 1), partsOf(one.outcome)], bad: false})),
];
function listOf(head) {
  const made = document.createElement('table'), body = made.createTBody();
  rows.forEach((row, k) => {
    if (row.head !== head) return;
    const line = body.insertRow(), [first, second] = row.cells, name = line.insertCell(), said = line.insertCell();
    if (row.one.schedule) line.dataset.row = k;
    name.textContent = first;
    if (row.bad) name.className = 'bad';
    for (const text of [second].flat()) said.append(Object.assign(document.createElement('div'), {textContent: text}));
  });
  return body.rows.length ? [Object.assign(document.createElement('h2'), {textContent: head}), made] : [];
}
function show(k) {
  const row = rows[k];
  for (const line of at('found').querySelectorAll('tr[data-row]')) line.classList.toggle('lit', Number(line.dataset.row) === k);
  take(stepsOf(row.one));
  at('shown').textContent = 'A schedule that leads to: ' + row.cells[0] + (row.head === 'Outcomes' ? '' : ', ' + row.cells[1]);
  if (row.head === 'Outcomes') at('shown').textContent = 'A schedule that leads to outcome ' + row.cells[0];
  view.scrollLeft = 0;
  layOut();
  choose(steps.length - 1);
  reveal(steps.length - 1);
}
function tell() {
  const broken = of('claim').filter(one => one.verdict === 'broken'), open = of('claim').filter(one => one.verdict === 'undecided');
  const faults = [...new Set(of('fault').map(one => one.fault))], outcomes = counts.outcomes === 1 ? '1 outcome' : counts.outcomes + ' outcomes';
  const said = [counts.whole ? outcomes : 'undecided: ' + outcomes + ' found'];
  if (broken.length) said.push('broken at ' + broken.map(one => one.claim).join(', '));
  else if (open.length) said.push('undecided at ' + open.map(one => one.claim).join(', '));
  else if (of('claim').length) said.push('all claims kept');
  if (faults.length) said.push(faults.join(', '));
  at('verdict').textContent = said.join('; ');
  if (broken.length) at('verdict').className = 'illegal';
  document.title = 'pif explore: ' + said.join('; ');
  const why = [counts.states + ' states, ' + counts.steps + ' steps' + (counts.whole ? '' : ', and there are more')];
  at('why').replaceChildren(...why.map(text => Object.assign(document.createElement('p'), {textContent: text, className: 'faint'})));
  at('found').replaceChildren(...['Claims', 'Faults', 'Delays', 'Outcomes'].flatMap(listOf));
  at('program').textContent = program.program.replace(/\n$/, '').split('\n').map((line, k) => String(k + 1).padStart(3) + '  ' + line).join('\n');
}
at('found').addEventListener('click', event => {
  const line = event.target.closest('tr[data-row]');
  if (line) show(Number(line.dataset.row));
});
svg.addEventListener('click', event => {
  const mark = event.target.closest('[data-step]');
  if (mark) choose(Number(mark.dataset.step));
});
view.addEventListener('scroll', draw);
window.addEventListener('resize', draw);
at('width').addEventListener('input', () => { width = Number(at('width').value); draw(); });
document.addEventListener('keydown', event => {
  if (event.target.tagName !== 'INPUT' && event.key === 'ArrowLeft') { event.preventDefault(); go(-1); }
  if (event.target.tagName !== 'INPUT' && event.key === 'ArrowRight') { event.preventDefault(); go(1); }
});
tell();
const bad = rows.findIndex(row => row.bad && row.one.schedule), any = rows.findIndex(row => row.one.schedule);
if (any >= 0) show(bad < 0 ? any : bad);
</script></body></html>
"#;
