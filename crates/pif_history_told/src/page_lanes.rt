/// A page behind its lines of JSON, up to what is of one command alone.
pub const BEGIN: &str = r#"</script>
<script>
'use strict';
const at = id => document.getElementById(id);
const every = at('lines').textContent.split('\n').filter(Boolean).map(line => JSON.parse(line));
"#;
/// What all pages have of lanes: a run step by step, who waits for whom, and the state behind a step.
pub const LANES: &str = r#"const LANE = 56, TOP = 34;
const view = at('view'), track = at('track'), svg = track.querySelector('svg');

// A state: its threads, mutexes and condition variables by their names. A whole one takes the place of all.
const empty = () => ({threads: new Map(), mutexes: new Map(), conds: new Map()});
function change(state, by) {
  for (const kind of ['threads', 'mutexes', 'conds']) {
    if (by.whole) state[kind].clear();
    for (const one of by[kind]) state[kind].set(one.name, one);
  }
}

// The steps that are shown, in order, and the state behind them.
let steps = [], last = empty();

// The state behind a step: from the last whole one on, each change.
function stateAt(place) {
  let from = place;
  while (from > 0 && !steps[from].by.whole) from -= 1;
  const state = empty();
  for (let k = Math.max(from, 0); k <= place; k += 1) change(state, steps[k].by);
  return state;
}

const callOf = thread => thread && thread.call ? thread.call.split(' ').slice(2) : null;
const lastNamed = (words, letter) => (words || []).filter(word => word[0] === letter && /^.\d+$/.test(word)).pop() || null;
function waitsFor(thread) {
  const words = callOf(thread), how = thread.progress || '';
  if (how.startsWith('waiting')) return lastNamed(words, 'm');
  return how.startsWith('blocked') || how === 'enlisted' ? lastNamed(words, 'c') : null;
}
// Who waits for it, in the order in which they get it: by priority, and of equals by how long they have waited.
const arrivals = new Map();
const arrival = (thread, place) => (arrivals.get(thread) || []).filter(at => at <= place).pop() ?? -1;
const waitersOf = (state, name, place) => [...state.threads.values()].filter(thread => waitsFor(thread) === name)
  .sort((a, b) => b.priority - a.priority || arrival(a.name, place) - arrival(b.name, place));

// What a step changes, in words.
function mutexWords(old, now) {
  const was = old ? old.owner : null, said = old ? [] : [now.name + ' is there'];
  if (now.owner !== was) {
    if (now.owner === null) said.push(was + ' frees ' + now.name);
    else said.push(now.owner + (was === null ? ' takes ' : ' is handed ') + now.name);
  } else if (old && now.count !== old.count) said.push(now.owner + ' holds ' + now.name + ' ' + now.count + ' times');
  if (old && now.health !== old.health) said.push(now.name + ' is ' + now.health);
  return said;
}
const PROGRESS = {'fresh': ' begins', 'checked': ' may wait on C', 'enlisted': ' joins those blocked on C',
  'enlisted and unblocked': ' is unblocked', 'blocked': ' is blocked on C', 'blocked and told': ' is told to wait on C',
  'reacquiring': ' has to lock M again', 'used': ' uses C', 'waiting': ' waits for M', 'waiting for good': ' waits for M for good',
  'leaving': ' has to leave M'};
function progressWords(now) {
  if (now.progress.startsWith('answer ')) return now.name + ' comes to ' + now.progress;
  const words = callOf(now), known = PROGRESS[now.progress];
  return known ? now.name + known.replace('C', lastNamed(words, 'c')).replace('M', lastNamed(words, 'm')) : '';
}
function threadWords(old, now) {
  const said = [];
  if (!old) said.push(now.name + ' is there');
  if (old && old.living && !now.living) said.push(now.name + ' ends');
  if (now.progress && (!old || old.progress !== now.progress)) said.push(progressWords(now));
  if (old && old.call && !now.call && now.living) said.push(now.name + ' returns');
  if (old && now.living && old.priority !== now.priority) said.push(now.name + ' has priority ' + now.priority);
  return said;
}
const isNew = (old, now) => JSON.stringify(old) !== JSON.stringify(now);
function wordsOf(before, by) {
  const changed = kind => by[kind].filter(now => isNew(before[kind].get(now.name), now));
  return [...changed('mutexes').flatMap(now => mutexWords(before.mutexes.get(now.name), now)),
    ...changed('threads').flatMap(now => threadWords(before.threads.get(now.name), now))].filter(Boolean);
}

const ERRORS = {1: 'EPERM', 3: 'ESRCH', 11: 'EAGAIN', 14: 'EFAULT', 16: 'EBUSY', 22: 'EINVAL', 35: 'EDEADLK', 75: 'EOVERFLOW',
  110: 'ETIMEDOUT', 130: 'EOWNERDEAD', 131: 'ENOTRECOVERABLE'};
const named = answer => answer in ERRORS ? answer + ' ' + ERRORS[answer] : answer;

// One way through all steps: the call of each, the calls that are open behind it, and the mutexes that are owned, or that an
// owner who ended left behind.
const bars = [], binding = new Map();
function barsOf() {
  const open = new Map(), latest = new Map(), now = empty();
  const close = (thread, end, answer) => {
    const bar = open.get(thread);
    if (bar) { bar.end = end; bar.answer = answer; open.delete(thread); }
  };
  const begin = (thread, words, from) => {
    const bar = {thread, words, from, end: steps.length, next: null, answer: null};
    if (latest.has(thread)) latest.get(thread).next = bar;
    open.set(thread, bar);
    latest.set(thread, bar);
    bars.push(bar);
  };
  const whole = steps.findIndex(step => step.by.whole);
  steps.forEach((step, place) => {
    if (step.kind === 'begin') begin(step.thread, step.text.split(' ').slice(2), place);
    const waited = step.by.threads.map(thread => waitsFor(now.threads.get(thread.name) || {}));
    change(now, step.by);
    step.by.threads.forEach((thread, k) => {
      if (waitsFor(thread) && waitsFor(thread) !== waited[k])
        arrivals.set(thread.name, [...(arrivals.get(thread.name) || []), place]);
    });
    if (place === whole)
      for (const thread of now.threads.values())
        if (thread.call && !open.has(thread.name)) begin(thread.name, callOf(thread), -1);
    const bar = open.get(step.thread);
    step.words = bar ? bar.words : [];
    if (step.kind === 'answer') close(step.thread, place, named(step.text.split(' ')[2]));
    if (step.kind === 'end' || step.kind === 'ends') close(step.thread, place, null);
    step.open = [...open.values()].map(one => one.words);
    step.owned = [...now.mutexes.values()].filter(mutex => mutex.owner !== null || mutex.health !== 'fine').map(mutex => mutex.name);
  });
  for (const cond of now.conds.values()) binding.set(cond.name, cond.mutex);
  return now;
}
// Shows these steps from here on.
function take(run) {
  steps = run;
  bars.length = 0;
  binding.clear();
  arrivals.clear();
  last = barsOf();
}

// Lines that say what was seen of a thread, and no call of it.
const SEEN = ['rests', 'prio'];

// THE DRAWING: of what is in sight alone

let shown = [], column = new Map(), lanes = [], chosen = -1, width = 30;
function layOut() {
  shown = chosenSteps();
  column = new Map(shown.map((place, k) => [place, k]));
  const isAll = shown.length === steps.length;
  const threads = isAll ? [...last.threads.keys()] : [...new Set(shown.map(place => steps[place].thread).filter(Boolean))];
  const wrong = isWrong ? verdict.text.split(' ')[1] : null;
  if (wrong && /^t\d+$/.test(wrong) && !threads.includes(wrong)) threads.push(wrong);
  lanes = threads.sort((a, b) => Number(a.slice(1)) - Number(b.slice(1)));
  at('names').style.paddingTop = TOP + 'px';
  at('names').replaceChildren(...lanes.map(name => {
    const lane = document.createElement('div');
    lane.append(name, ...(names[name] ? [Object.assign(document.createElement('small'), {textContent: names[name]})] : []));
    lane.title = full(name);
    lane.style.height = LANE + 'px';
    return lane;
  }));
  draw();
}
const isHidden = step => step.kind === 'move' || step.kind === 'ends';
const middle = k => (k + 1) * width;
const laneOf = thread => TOP + lanes.indexOf(thread) * LANE + LANE / 2;
function columnBehind(place) {
  let low = 0, high = shown.length;
  while (low < high) { const mid = (low + high) >> 1; if (shown[mid] < place) low = mid + 1; else high = mid; }
  return low;
}
function add(name, values, text) {
  const made = document.createElementNS('http://www.w3.org/2000/svg', name);
  for (const key of Object.keys(values)) made.setAttribute(key, values[key]);
  if (text !== undefined) made.textContent = text;
  svg.append(made);
  return made;
}
const wide = text => text.length * 6.8;
const cut = (text, room) => wide(text) > room ? text.slice(0, Math.max(Math.floor(room / 6.8) - 1, 1)) + '\u2026' : text;
// The column of the next call of a bar's thread that is shown.
function columnBehindBar(bar) {
  let next = bar.next;
  while (next && !column.has(next.from)) next = next.next;
  return next ? column.get(next.from) : shown.length;
}
// Whether a bar is the call of the line that no run has, or none without further rules.
const fails = bar => isWrong ? bar.end === steps.length && bar.thread === verdict.text.split(' ')[1] : blamed >= 0 && bar.end === blamed;
function drawBar(bar, first, end) {
  if (!lanes.includes(bar.thread) || (bar.from >= 0 && !column.has(bar.from))) return;
  const from = bar.from < 0 ? -1 : column.get(bar.from), to = columnBehind(bar.end);
  if (to < first || from > end) return;
  const x = Math.max(middle(from), -40), right = middle(to), y = laneOf(bar.thread) - 13, isOpen = bar.answer === null;
  const text = bar.words.join(' ') + (isOpen ? '' : ' = ' + bar.answer), start = Math.max(x, view.scrollLeft);
  const made = add('rect', {class: 'bar' + (isOpen ? ' open' : '') + (fails(bar) ? ' wrong' : ''), x, y, width: Math.max(right - x, 4), height: 26, rx: 4});
  made.append(titled(bar.words.map(full).join(' ') + (isOpen ? '' : ' = ' + bar.answer) + (steps[bar.from] ? placed(steps[bar.from].line) : '')));
  const room = middle(columnBehindBar(bar)) - start - 10;
  if (fails(bar)) add('text', {class: 'wrong', x: Math.max(Math.min(start, right - 7 - wide(text)), view.scrollLeft) + 7, y: y - 4}, text);
  else if (right > start + 8 && room > 24) add('text', {x: start + 7, y: y - 4}, cut(text, room));
}
const titled = text => Object.assign(document.createElementNS('http://www.w3.org/2000/svg', 'title'), {textContent: text});
// The room from a column to the next one that is labelled at the same place: all lines, ticks, or what is seen of a thread.
function roomBehind(k, isAlike, most) {
  let next = k + 1;
  while (next < shown.length && (next - k) * width < most && !isAlike(steps[shown[next]])) next += 1;
  return next < shown.length ? (next - k) * width : most;
}
function drawLabels(place, x, k) {
  const step = steps[place], y = step.thread ? laneOf(step.thread) : TOP - 8;
  if (step.kind === 'tick') {
    add('line', {class: 'tick', x1: x, x2: x, y1: TOP - 12, y2: TOP + lanes.length * LANE});
    add('text', {class: 'faint', x: x + 3, y: TOP - 12}, cut(step.text, roomBehind(k, other => other.kind === 'tick', 90) + 12));
  }
  const isOf = other => other.thread === step.thread && [...SEEN, 'dying'].includes(other.kind);
  if (isOf(step)) {
    const [kind, , number = ''] = step.text.split(' '), room = roomBehind(k, isOf, 90) - 4;
    const text = [(kind + ' ' + number).trim(), number].find(text => wide(text) <= room) || '';
    add('text', {class: SEEN.includes(kind) ? 'seen' : 'faint', x: x - 6, y: y + 25}, text);
  }
}
function drawMark(place, x, k) {
  const step = steps[place], y = step.thread ? laneOf(step.thread) : TOP - 8;
  const kind = SEEN.includes(step.kind) ? 'seen' : isHidden(step) || step.kind === 'end' ? step.kind : 'line';
  const mark = {'data-step': place, class: 'step ' + kind};
  drawLabels(place, x, k);
  let made;
  if (step.kind === 'ends' || step.kind === 'end') made = add('path', {...mark, d: 'M' + (x - 5) + ' ' + (y - 5) + 'l10 10m0 -10l-10 10'});
  else if (kind === 'seen') made = add('path', {...mark, d: 'M' + x + ' ' + (y - 7) + 'l7 7l-7 7l-7 -7z'});
  else made = add('circle', {...mark, cx: x, cy: y, r: kind === 'move' ? 4.5 : 5});
  made.append(titled(titleOf(place)));
  if (place === blamed) drawCross(x, y);
}
// The numbers of the lines, as far as there is room for them.
function drawNumbers(first, end) {
  let free = -Infinity;
  for (let k = first; k < end; k += 1) {
    const step = steps[shown[k]], x = middle(k) - String(step.line).length * 3;
    if (isHidden(step) || x < free) continue;
    add('text', {class: 'faint', x, y: 12}, step.line);
    free = x + String(step.line).length * 6 + 6;
  }
}
const drawCross = (x, y) => add('path', {class: 'wrong cross', d: 'M' + (x - 6) + ' ' + (y - 6) + 'l12 12m0 -12l-12 12'});
function draw() {
  const total = middle(shown.length) + (isWrong ? Math.max(wrongText().length * 7.6 + 16, 160) : 160), height = TOP + lanes.length * LANE + 6, sight = view.clientWidth || 1000;
  track.style.width = total + 'px';
  track.style.height = height + 'px';
  const left = Math.max(view.scrollLeft - 60, 0), right = Math.min(view.scrollLeft + sight + 60, total);
  svg.style.left = left + 'px';
  svg.setAttribute('width', right - left);
  svg.setAttribute('height', height);
  svg.setAttribute('viewBox', [left, 0, right - left, height].join(' '));
  svg.replaceChildren();
  const first = Math.max(Math.floor(left / width) - 2, 0), end = Math.min(Math.ceil(right / width) + 1, shown.length);
  lanes.forEach(name => add('line', {class: 'lane', x1: left, x2: right, y1: laneOf(name), y2: laneOf(name)}));
  if (column.has(chosen)) add('rect', {class: 'chosen', x: middle(column.get(chosen)) - 9, y: 0, width: 18, height});
  for (const bar of bars) drawBar(bar, first, end);
  const moves = [];
  for (let k = Math.max(first - 200, 0); k < Math.min(end + 200, shown.length); k += 1)
    if (isHidden(steps[shown[k]])) moves.push(middle(k) + ',' + laneOf(steps[shown[k]].thread));
  add('polyline', {class: 'run', points: moves.join(' ')});
  drawNumbers(first, end);
  for (let k = first; k < end; k += 1) drawMark(shown[k], middle(k), k);
  if (isWrong) drawWrong();
}

// WHO WAITS FOR WHOM

// What waits, as rows: each below what it waits for, one step in, and of several the one that gets it first before the
// others. A cycle begins with the first of its threads that is listed.
function rowsOf(state, place) {
  const rows = [], seen = new Set();
  const below = (thing, depth, up) => waitersOf(state, thing, place).forEach(thread => visit(thread, depth, up, thing));
  function visit(thread, depth, up, thing) {
    const at = rows.push({name: thread.name, text: thread.name + ' (' + thread.priority + ')', depth, up, thing, isThread: true}) - 1;
    if (seen.has(thread.name)) return;
    seen.add(thread.name);
    for (const mutex of state.mutexes.values()) if (mutex.owner === thread.name) below(mutex.name, depth + 1, at);
  }
  const owns = thread => [...state.mutexes.values()].some(mutex => mutex.owner === thread.name && waitersOf(state, mutex.name, place).length);
  for (const thread of state.threads.values()) if (!waitsFor(thread) && owns(thread)) visit(thread, 0, -1, null);
  const free = [...state.mutexes.values()].filter(mutex => mutex.owner === null);
  for (const thing of [...free, ...state.conds.values()])
    if (waitersOf(state, thing.name, place).length) below(thing.name, 1, rows.push({name: thing.name, text: thing.name, depth: 0, up: -1}) - 1);
  for (const thread of state.threads.values()) if (waitsFor(thread) && !seen.has(thread.name)) visit(thread, 0, -1, null);
  return rows;
}
function graphOf(state, place) {
  const rows = rowsOf(state, place), figure = document.createElement('figure'), ROW = 34, STEP = 58;
  if (!rows.length) return [];
  figure.id = 'graph';
  figure.append(Object.assign(document.createElement('figcaption'), {textContent: 'who waits for whom, in the order in which they get it'}));
  const picture = figure.appendChild(document.createElementNS('http://www.w3.org/2000/svg', 'svg'));
  const put = (name, values, text) => {
    const made = document.createElementNS('http://www.w3.org/2000/svg', name);
    for (const key of Object.keys(values)) made.setAttribute(key, values[key]);
    if (text !== undefined) made.textContent = text;
    return picture.appendChild(made);
  };
  const wrong = isWrong ? verdict.text.split(' ')[1] : null;
  let right = 0;
  rows.forEach((row, k) => {
    const x = row.depth * STEP + 1, y = k * ROW + 4, text = row.text + (names[row.name] ? ' ' + names[row.name] : '');
    if (row.up >= 0) {
      const from = (row.depth - 1) * STEP + 15, top = row.up * ROW + 30;
      put('path', {class: 'wait', d: 'M' + from + ' ' + (top + 4) + 'V' + (y + 13) + 'H' + x});
      put('path', {class: 'head', d: 'M' + (from - 4) + ' ' + (top + 7) + 'h8l-4 -7z'});
      if (row.thing && rows[row.up].isThread) put('text', {class: 'faint', x: from + 5, y: y + 10}, row.thing);
    }
    const room = Math.min(wide(text) + 14, 230);
    put('rect', {class: 'node' + (row.isThread ? ' held' : '') + (row.name === wrong ? ' wrong' : ''), x, y, width: room, height: 26, rx: row.isThread ? 4 : 13});
    put('text', {x: x + 7, y: y + 17}, cut(text, room - 10)).append(titled(full(row.name)));
    right = Math.max(right, x + room + 2);
  });
  picture.setAttribute('width', right);
  picture.setAttribute('height', rows.length * ROW + 2);
  return [figure];
}

// THE STATE BEHIND A STEP

// What the words for how far a call has come mean.
const EXPLAINED = {'fresh': 'nothing of it has happened', 'waiting': 'it waits for M', 'waiting for good': 'M is never free for it',
  'leaving': 'it owns M, which is unusable, and gives it up', 'checked': 'a wait that owns M, and may wait on C',
  'enlisted': 'it is among those blocked on C, and owns M yet', 'enlisted and unblocked': 'it was woken while it owned M yet',
  'blocked': 'it gave M up, and is blocked on C', 'blocked and told': 'it is blocked on C, and its thread was told to wait: its deadline counts',
  'reacquiring': 'it was woken or ran out of time, and has to lock M again', 'used': 'it has used C, and chooses whom it wakes'};
function explained(thread) {
  const words = callOf(thread), known = EXPLAINED[thread.progress];
  if (thread.progress && thread.progress.startsWith('answer ')) return 'it has this result, and has to return';
  return known ? known.replace('C', lastNamed(words, 'c')).replace('M', lastNamed(words, 'm') || binding.get(lastNamed(words, 'c'))) : '';
}
// A cell of a text, and of others that stand small below it.
function cellOf(cell, texts) {
  const [first, ...more] = [texts].flat();
  cell.append(first, ...more.filter(Boolean).map(text => Object.assign(document.createElement('small'), {textContent: text})));
}
function table(id, heads, rows, lit) {
  const made = document.createElement('table');
  made.id = id;
  const head = made.createTHead().insertRow();
  for (const text of heads) head.append(Object.assign(document.createElement('th'), {textContent: text}));
  const body = made.createTBody();
  for (const cells of rows) {
    const row = body.insertRow();
    if (lit.has([cells[0]].flat()[0])) row.className = 'lit';
    for (const cell of cells) cellOf(row.insertCell(), cell);
  }
  return made;
}
function choose(place) {
  if (place < 0 || place >= steps.length) return;
  chosen = place;
  const step = steps[place], before = place ? stateAt(place - 1) : empty(), state = stateAt(place);
  const isLate = step.kind === 'ends' && before.threads.get(step.thread)?.living === false;
  const passes = isLate && !(step.by.rule || '').includes('ends_apart') ? ['its process has ended'] : [];
  const said = [...(step.by.rule ? [`by the rule ${step.by.rule}`] : []), ...passes, ...wordsOf(before, step.by), ...moreWords(place)];
  const lit = new Set(step.by.whole ? [] : [...step.by.threads, ...step.by.mutexes].map(one => one.name));
  at('where').textContent = 'After ' + titleOf(place);
  at('words').textContent = said.length ? said.join('; ') : place && !step.by.whole ? 'nothing changes' : 'the whole state';
  const owns = name => [...state.mutexes.values()].filter(mutex => mutex.owner === name).map(mutex => mutex.name).join(' ');
  const who = name => waitersOf(state, name, place).map(thread => thread.name).join(' ');
  const callWords = t => [(callOf(t) || [t.living ? '' : 'ended']).join(' '), t.progress ? t.progress + ': ' + explained(t) : ''];
  const threads = [...state.threads.values()].map(t => [[t.name, names[t.name]], String(t.priority), owns(t.name),
    [waitsFor(t) || '', t.rests ? 'rests' : ''], callWords(t)]);
  const mutexes = [...state.mutexes.values()].map(m => [[m.name, names[m.name]],
    (m.owner || '') + (m.count > 1 ? ', ' + m.count + ' times' : ''), m.health, who(m.name)]);
  const conds = [...state.conds.values()].map(c => [[c.name, names[c.name]], c.mutex, who(c.name)]);
  at('state').replaceChildren(...graphOf(state, place),
    table('threads', ['thread', 'priority', 'owns', 'waits for', 'call'], threads, lit),
    table('mutexes', ['mutex', 'owner', 'health', 'waiters, in order'], mutexes, lit),
    table('conds', ['variable', 'mutex', 'blocked, in order'], conds, lit), ...moreTables(place));
  draw();
}
function reveal(place) {
  if (!column.has(place)) { at('all').checked = true; layOut(); }
  const x = middle(column.get(place));
  if (x < view.scrollLeft + 60 || x > view.scrollLeft + view.clientWidth - 120) view.scrollLeft = x - view.clientWidth / 2;
  draw();
}
function go(by) {
  const k = column.has(chosen) ? column.get(chosen) + by : columnBehind(chosen);
  if (shown[k] !== undefined) { choose(shown[k]); reveal(shown[k]); }
}
"#;
