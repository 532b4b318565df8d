ghost use Rattle.std.specs.Prelude.{◌≡◌, ◌++◌, IfOk};
ghost use Rattle.pif_job_draw.specs.Pictures.{Holds};

use std::alloc::{AllocError, Global};

/// The page before its drawing: the title and the looks.
const PAGE_HEAD: &str = "<!DOCTYPE html>\n\
    <html lang=\"en\"><head><meta charset=\"utf-8\"><title>pif draw</title>\n\
    <meta name=\"viewport\" content=\"width=device-width, initial-scale=1\"><style>\n\
    body{font:14px sans-serif;margin:12px;background:#fff;color:#1f2328}\n\
    #drawing{overflow-x:auto;position:relative}\n\
    #step{width:100%}\n\
    #state{overflow-x:auto}\n\
    table{border-collapse:collapse;margin:8px 24px 8px 0;display:inline-table;vertical-align:top}\n\
    td,th{border:1px solid #d0d7de;padding:2px 8px;text-align:left}\n\
    .lit{background:#ffd8a8;color:#1f2328}\n\
    svg .lit{fill:#c93a00}\n\
    svg rect.lit{fill:#ffd8a8;opacity:.4}\n\
    svg .now{fill:#0969da;fill-opacity:.14;stroke:#0969da;stroke-width:1.5}\n\
    @media(prefers-color-scheme:dark){body{background:#0d1117;color:#e6edf3;color-scheme:dark}td,th{border-color:#30363d}\n\
    .lit{background:#4d3800}.lit,.lit td{color:#e6edf3}svg .lit{fill:#ffa36e}svg rect.lit{fill:#ffa36e;opacity:.18}\n\
    svg .now{fill:#58a6ff;fill-opacity:.2;stroke:#58a6ff}}\n\
    </style></head><body>\n\
    <div id=\"drawing\">\n";

/// The page between its drawing and the states.
const PAGE_MIDDLE: &str = "</div>\n\
    <p><label>Command <input id=\"step\" type=\"range\" min=\"0\" value=\"0\"></label></p>\n\
    <p id=\"command\"></p>\n\
    <div id=\"state\"></div>\n\
    <script type=\"application/json\" id=\"states\">\n";

/// The page behind the states: what shows the one that is chosen.
const PAGE_END: &str = "</script>\n<script>\n\
    'use strict';\n\
    const states = document.getElementById('states').textContent.split('\\n').filter(Boolean).map(JSON.parse);\n\
    const step = document.getElementById('step');\n\
    const svg = document.querySelector('#drawing svg');\n\
    const or = (value, other) => value === null ? other : String(value);\n\
    const words = answer => 'text' in answer ? answer.text :\n\
    \x20 'answer ' + answer.answer + (answer.error === null ? '' : ' ' + answer.error);\n\
    function table(id, heads, rows, lit) {\n\
    \x20 const made = document.createElement('table');\n\
    \x20 made.id = id;\n\
    \x20 for (const cells of [heads, ...rows]) {\n\
    \x20   const row = made.insertRow();\n\
    \x20   if (lit.has(cells[0])) row.className = 'lit';\n\
    \x20   for (const cell of cells) row.insertCell().textContent = cell;\n\
    \x20 }\n\
    \x20 return made;\n\
    }\n\
    function mark(line, lit) {\n\
    \x20 for (const old of svg.querySelectorAll('.now')) old.remove();\n\
    \x20 for (const name of svg.querySelectorAll('text.name')) name.classList.toggle('lit', lit.has(name.textContent));\n\
    \x20 for (const lane of svg.querySelectorAll('rect.odd, rect.even')) lane.classList.toggle('lit', lit.has(lane.textContent));\n\
    \x20 for (const place of svg.querySelectorAll('text.line')) {\n\
    \x20   if (place.textContent !== String(line)) continue;\n\
    \x20   const now = document.createElementNS('http://www.w3.org/2000/svg', 'rect');\n\
    \x20   const box = {class: 'now', x: place.getAttribute('x'), y: 60, width: 40, height: '100%'};\n\
    \x20   for (const key of Object.keys(box)) now.setAttribute(key, box[key]);\n\
    \x20   svg.append(now);\n\
    \x20   document.getElementById('drawing').scrollLeft = Number(box.x) - 200;\n\
    \x20 }\n\
    }\n\
    function show(place) {\n\
    \x20 const state = states[place];\n\
    \x20 if (state === undefined) return;\n\
    \x20 const lit = new Set(state.chains.flat());\n\
    \x20 document.getElementById('command').textContent =\n\
    \x20   'line ' + state.line + ': ' + state.command + ' = ' + words(state.answer);\n\
    \x20 const threads = state.threads.map(t => [t.name, or(t.label, ''), t.state, or(t.priority, ''), or(t.base, ''),\n\
    \x20   or(t.waits_for, or(t.parked_on, '')), t.holds.join(' '), or(t.call, '')]);\n\
    \x20 const mutexes = state.mutexes.map(m => [m.name, m.kind, m.robust ? m.health : '', or(m.owner, ''),\n\
    \x20   String(m.count), m.waiters.join(' ')]);\n\
    \x20 const conds = state.conds.map(c => [c.name, c.mutex, String(c.uses), c.parked.join(' ')]);\n\
    \x20 document.getElementById('state').replaceChildren(\n\
    \x20   table('threads', ['thread', 'name', 'does', 'priority', 'base', 'waits for', 'holds', 'call'], threads, lit),\n\
    \x20   table('mutexes', ['mutex', 'kind', 'health', 'owner', 'times', 'waiters'], mutexes, lit),\n\
    \x20   table('conds', ['variable', 'mutex', 'uses', 'parked'], conds, lit),\n\
    \x20   table('orders', ['time ' + state.time, ''], [['run queue', state.run_queue.join(' ')],\n\
    \x20     ...state.chains.map(chain => ['chain', chain.join(' -> ')])], new Set(['chain'])));\n\
    \x20 mark(state.line, lit);\n\
    }\n\
    step.max = states.length - 1;\n\
    step.addEventListener('input', () => show(Number(step.value)));\n\
    const waits = thread => thread.waits_for !== null || thread.parked_on !== null;\n\
    const named = states.findIndex(state => '#' + state.line === location.hash);\n\
    const waiting = states.findIndex(state => state.threads.some(waits));\n\
    const calling = states.findIndex(state => state.threads.some(thread => thread.call !== null));\n\
    const first = Math.max(0, [named, waiting, calling].find(place => place >= 0) ?? 0);\n\
    step.value = first;\n\
    show(first);\n\
    </script></body></html>\n";

/// These parts, one behind the other.
///
/// # Errors
///
/// A growth of memory was refused.
fn joined(
    alloc: Global,
    head: &[u8],
    drawing: &[u8],
    middle: &[u8],
    states: &[u8],
    end: &[u8],
) -> Result<Vec<u8>, AllocError>
    ensures { IfOk result (λ page. page.items ≡ head.now ++ drawing.now ++ middle.now ++ states.now ++ end.now) }
{
    let mut page = Vec::new(alloc);
    page.extend_from_slice(head)?;
    page.extend_from_slice(drawing)?;
    page.extend_from_slice(middle)?;
    page.extend_from_slice(states)?;
    page.extend_from_slice(end)?;
    Ok(page)
}

/// The page of a drawing and of the states behind the commands, as lines of JSON.
///
/// # Errors
///
/// A growth of memory was refused.
pub fn page_of(alloc: Global, drawing: &[u8], states: &[u8]) -> Result<Vec<u8>, AllocError>
    ensures { IfOk result (λ page. Holds states.now page.items) }
{
    joined(
        alloc,
        PAGE_HEAD.as_bytes(),
        drawing,
        PAGE_MIDDLE.as_bytes(),
        states,
        PAGE_END.as_bytes(),
    )
}
