//! What the page does.

/// The script, in plain JavaScript. What comes from the text is put into the page as text, and never
/// as HTML.
pub const SCRIPT: &[u8] = br#"'use strict';

// The data, and names for the parts of a row.
const data = JSON.parse(document.getElementById('data').textContent);
const [KIND, LEVEL, CENTRE, AGENT, NUMBER, WHAT, RESULT, PARTNER, REACTIONS] = [0, 1, 2, 3, 4, 5, 6, 7, 8];
const [CALL, ANSWER, LOOK, REFUSED] = [0, 1, 2, 3];
const { rows, centres, agents, centreCounts, agentCounts } = data;

const PART = 10000; // how many rows the page has at once
const HEIGHT = 26; // of a folded row, in pixels
const MOST_AGENTS = 24; // that have a lane of their own; the others share one
const MOST_CENTRES = 16;

// Why something was refused, by the first word of the cause.
const CAUSES = {
  unknown: 'no centre has this name',
  waiting: 'an earlier call of the agent was pending',
  denied: 'no grant of the agent\'s role permits it',
  too: 'the term of the call is beyond the limits of a tuple or a template',
  not: 'a variable of the term had no value',
  bad: 'the text of clauses is faulty at the clause of this number; 0: it is no text',
  turns: 'the agent had used all its turns at this centre',
  full: 'the history was too heavy for another call: its weight, and how many requests were pending',
};

const EVERYTHING = { agent: -1, centre: -1, words: [], show: 'all' };
const asked = { ...EVERYTHING };
const open = new Map(); // the height of each unfolded row
const texts = []; // what is searched of each row, once it is
let listed = []; // the rows that were asked for, in order
let from = 0; // the place in that list of the first row on the page
let tops = [0]; // where the rows on the page begin, and where the last one ends
let bars = []; // the waits of the rows on the page, by places
const seen = new Map(); // the elements of each row that is seen, by its place
let lanes = [];
let current = -1; // the row that the keyboard is at

const at = id => document.getElementById(id);
const number = n => n.toLocaleString('en');
const several = (n, word) => `${number(n)} ${word}${n === 1 ? '' : 's'}`;
const hue = agent => Math.round(agent * 137.508 + 210) % 360;
const firstWord = text => text.split(' ', 1)[0];

function make(tag, className, ...parts) {
  const element = document.createElement(tag);
  if (className) element.className = className;
  element.append(...parts);
  return element;
}

function draw(tag, className, attributes) {
  const element = document.createElementNS('http://www.w3.org/2000/svg', tag);
  element.setAttribute('class', className);
  for (const name in attributes) element.setAttribute(name, attributes[name]);
  return element;
}

function button(className, text, does) {
  return Object.assign(make('button', className, text), { type: 'button', onclick: does });
}

function coloured(element, agent) {
  element.style.setProperty('--hue', hue(agent));
  element.title = element.textContent;
  return element;
}
const agentName = agent => agents[agent] ?? '?';
const centreName = row => row[CENTRE] < 0 ? row[WHAT] : centres[row[CENTRE]];

// The place of each entry in its history, from 1.
const placeThere = (() => {
  const counts = centres.map(() => 0);
  return rows.map(row => row[KIND] === REFUSED ? 0 : ++counts[row[CENTRE]]);
})();

// The calls that were pending.
const pending = rows.flatMap((row, i) => row[KIND] === CALL && row[RESULT] === 'pending' ? [i] : []);

// The row of the call that a row belongs to: its own, or the one that it answers.
const callOf = i => rows[i][KIND] === ANSWER && rows[i][PARTNER] >= 0 ? rows[i][PARTNER] : i;

// How many entries of its history the call of a row waited for, -1 for one that still waits; 0 where
// it was answered at once, or is no call that can wait.
function waitOf(i) {
  const call = callOf(i), row = rows[call];
  if (row[KIND] !== CALL || row[RESULT] !== 'pending') return 0;
  return row[PARTNER] < 0 ? -1 : placeThere[row[PARTNER]] - placeThere[call] - 1;
}

function waitWords(i) {
  const entries = waitOf(i);
  if (entries <= 0) return entries < 0 ? 'to the end' : '';
  return `${rows[i][KIND] === CALL ? 'for' : 'after'} ${number(entries)} ${entries === 1 ? 'entry' : 'entries'}`;
}

function whatOf(i) {
  const row = rows[i];
  if (row[KIND] === CALL) return row[WHAT];
  if (row[KIND] === ANSWER) return callOf(i) === i ? '' : rows[callOf(i)][WHAT];
  return row[KIND] === LOOK ? `poll of call ${row[WHAT]}` : `call ${row[NUMBER]}`;
}

const resultOf = row => row[KIND] === REFUSED ? `refused: ${row[RESULT]}` : row[RESULT];
const isOver = row => row[RESULT].startsWith('over ');
const failedIn = row => row[REACTIONS].filter(reaction => reaction[0] === 0).length;

// All that is searched of a row, in small letters.
function textOf(i) {
  const row = rows[i], name = row[KIND] === REFUSED ? row[WHAT] : '';
  const effects = row[REACTIONS].flatMap(reaction => reaction.slice(3).map(effect => effect.slice(1)));
  return [whatOf(i), resultOf(row), name, ...effects].join('\n').toLowerCase();
}

// The kinds of rows that can be asked for.
const SHOWS = {
  all: ['everything', () => true],
  waited: ['calls that waited, and answers', i => waitOf(i) !== 0],
  still: ['calls that still wait', i => waitOf(i) < 0],
  refused: ['what was refused', i => rows[i][KIND] === REFUSED],
  reacted: ['rows with reactions', i => rows[i][REACTIONS].length > 0],
  failed: ['rows with failed reactions', i => failedIn(rows[i]) > 0],
  over: ['over the budget', i => isOver(rows[i])],
};

function isAsked(i) {
  if (asked.agent >= 0 && rows[i][AGENT] !== asked.agent) return false;
  if (asked.centre >= 0 && rows[i][CENTRE] !== asked.centre) return false;
  if (!SHOWS[asked.show][1](i)) return false;
  return asked.words.every(word => (texts[i] ??= textOf(i)).includes(word));
}

// Columns: the heading, the place of the count, and how it looks.
const CENTRE_COLUMNS = [['Calls', 0], ['Waited', 3, 'wait'], ['Longest', 4], ['Still', 5, 'wait'], ['Polls', 2],
  ['Refused', 6, 'bad'], ['Fired', 7], ['Failed', 8], ['Over', 9, 'bad'], ['Tuples', 11, 'signed'],
  ['Most', 12, 'signed'], ['Weight', 10]];
const AGENT_COLUMNS = [['Calls', 0], ['Waited', 2, 'wait'], ['Longest', 3], ['Still', 4, 'wait'], ['Polls', 1],
  ['Refused', 5, 'bad']];
const MEANINGS = { Waited: 'calls that were not answered at once', Longest: 'the most entries that a call waited for',
  Still: 'calls that wait at the end', Fired: 'reactions that acted', Failed: 'reactions that were undone at a goal',
  Over: 'what went over the budget of reactions', Tuples: 'how many more there are at the end than at the start',
  Most: 'how many more than at the start there were at most',
  Weight: 'entries, and reactions that were tried; a history may weigh some 4,000,000' };
const [LONGEST, WEIGHT, MOST] = [4, 10, 12];

function countLine(name, count, columns) {
  return make('tr', '', make('td', '', name), ...columns.map(([, place, look]) => {
    const value = count[place], sign = look === 'signed' && value > 0 ? '+' : '';
    return make('td', value === 0 ? 'zero' : look, value === undefined ? '' : sign + number(value));
  }));
}

function table(id, word, columns, lines) {
  const head = make('tr', '', ...[[word], ...columns].map(([text]) => make('th', '', text)));
  for (const cell of head.children) cell.title = MEANINGS[cell.textContent] ?? '';
  const made = make('table', '', make('thead', '', head), make('tbody', '', ...lines));
  made.id = id;
  at('tables').append(make('div', 'scroll', made));
}

function showCounts() {
  const most = centreCounts.reduce((so_far, count) => Math.max(so_far, count[WEIGHT]), 0);
  const centreLines = centres.map((name, centre) => {
    const tag = button('plain name centre', name, () => ask({ centre })), weight = centreCounts[centre][WEIGHT];
    const line = countLine(tag, centreCounts[centre], CENTRE_COLUMNS), bar = make('i');
    bar.style.width = `${Math.round(100 * weight / Math.max(most, 1))}%`;
    line.lastChild.append(make('span', 'bar', bar));
    if (weight === most && centres.length > 1) line.firstChild.append(' (fullest)');
    return line;
  });
  if (centres.length > 1) {
    const sums = centreCounts.reduce((sum, count) => sum.map(
      (value, place) => place === LONGEST ? Math.max(value, count[place]) : value + count[place]));
    centreLines.push(countLine('all', sums.slice(0, MOST), CENTRE_COLUMNS));
    centreLines.at(-1).className = 'sum';
  }
  table('centre-counts', 'Centre', CENTRE_COLUMNS, centreLines);
  table('agent-counts', 'Agent', AGENT_COLUMNS, agents.map((name, agent) => countLine(
    coloured(button('plain name agent', name, () => ask({ agent })), agent), agentCounts[agent], AGENT_COLUMNS)));
}

function showTitle() {
  document.title = `A run of ${several(centres.length, 'centre')} and ${several(agents.length, 'agent')}`;
  at('title').textContent = document.title;
  const waiting = pending.filter(i => waitOf(i) < 0), verb = waiting.length === 1 ? 'waits' : 'wait';
  if (!data.blocked) at('ended').append('It has ended: every call has its reply, or was refused.');
  else at('ended').append(make('b', '', `Blocked: ${several(waiting.length, 'call')} still ${verb}. `));
  for (const i of waiting.slice(0, 4)) {
    const words = `${agentName(rows[i][AGENT])} at ${centreName(rows[i])}: ${whatOf(i)}`;
    at('ended').append(button('plain waits', words, () => go(i)));
  }
}

// At most so many places: those with the most calls, and the one that was asked for.
function busiest(counts, most, wanted) {
  const places = counts.map((_, place) => place);
  if (places.length <= most) return places;
  places.sort((a, b) => (b === wanted) - (a === wanted) || counts[b][0] - counts[a][0] || a - b);
  return places.slice(0, most).sort((a, b) => a - b);
}

function lanesOf(kind, names, counts, most) {
  const own = busiest(counts, most, asked[kind]).map(place => ({ kind, place, name: names[place] }));
  const others = names.length - own.length;
  return others === 0 ? own : [...own, { kind, place: -1, name: `${number(others)} others` }];
}

function layLanes() {
  lanes = [...lanesOf('agent', agents, agentCounts, MOST_AGENTS),
    ...lanesOf('centre', centres, centreCounts, MOST_CENTRES)];
  const wide = lanes.length > 14 ? 16 : 26;
  lanes.forEach((lane, n) => { lane.x = n * wide + (lane.kind === 'centre' ? 28 : 14); });
  lanes.width = lanes.length * wide + 28;
  const letters = lanes.reduce((most, { name }) => Math.max(most, name.length), 0);
  at('heads').style.height = `${12 + 7.5 * Math.max(3, Math.min(letters, 16))}px`;
  const words = ['step', 'agent', 'call', 'result', 'centre', 'reactions'].map(word => make('span', word, word));
  const columns = make('div', 'main', ...words);
  columns.style.left = `${lanes.width}px`;
  at('heads').replaceChildren(columns, ...lanes.map(lane => {
    const head = make('span', `lane ${lane.kind} name`, lane.name);
    head.style.left = `${lane.x - 9}px`;
    return lane.kind === 'agent' && lane.place >= 0 ? coloured(head, lane.place) : head;
  }));
}

// Where the lane of an agent or a centre is: its own, or that of the others.
function laneAt(kind, place) {
  const own = lanes.find(lane => lane.kind === kind && lane.place === place);
  return (own ?? lanes.find(lane => lane.kind === kind && lane.place < 0))?.x ?? 0;
}

// Makes the list of what was asked for, and shows its beginning.
function list() {
  listed = rows.flatMap((_, i) => isAsked(i) ? [i] : []);
  from = 0;
  layLanes();
  showPart();
}

// The first place before `high` of which the test doesn't hold; of all before that one it does.
function firstNot(high, test) {
  let low = 0;
  while (low < high) {
    const middle = (low + high) >> 1;
    if (test(middle)) low = middle + 1; else high = middle;
  }
  return low;
}

// The first place in the list whose row isn't before this one, and the place on the page of the row at a height.
const placeOf = i => firstNot(listed.length, n => listed[n] < i);
const rowAt = y => firstNot(tops.length - 1, n => tops[n + 1] <= y);
const isListed = i => listed[placeOf(i)] === i;
const countHere = () => Math.min(PART, listed.length - from);

function showPart() {
  const count = countHere(), all = several(rows.length, 'row');
  const some = listed.length === rows.length ? all : `${number(listed.length)} of ${all}`;
  const part = count < listed.length ? `; here ${number(from + 1)} to ${number(from + count)}` : '';
  at('found').textContent = some + part;
  const to = place => { from = Math.max(0, Math.min(place, listed.length - 1)); showPart(); scrollTo(0, 0); };
  const first = button('', 'First', () => to(0)), before = button('', 'Before', () => to(from - PART));
  const next = button('', 'Next', () => to(from + PART)), wanted = make('input');
  first.disabled = before.disabled = from === 0;
  next.disabled = from + PART >= listed.length;
  Object.assign(wanted, { type: 'number', min: 1, placeholder: 'from row', ariaLabel: 'from row' });
  wanted.addEventListener('change', () => { if (wanted.value) to(wanted.value - 1); });
  at('parts').replaceChildren(...listed.length > PART ? [first, before, next, wanted] : []);
  lay();
}

// Lays the rows of this part one below another, and the bars of waits beside them.
function lay() {
  const count = countHere();
  tops = new Float64Array(count + 1);
  for (let n = 0; n < count; n++) tops[n + 1] = tops[n] + (open.get(listed[from + n]) ?? HEIGHT);
  bars = [];
  for (const call of pending) {
    const answer = rows[call][PARTNER], isSeen = isListed(call) || (answer >= 0 && isListed(answer));
    const begin = placeOf(call) - from, end = (answer < 0 ? listed.length : placeOf(answer)) - from;
    if (!isSeen || begin >= count || end < 0) continue;
    bars.push({ begin, end, x: laneAt('agent', rows[call][AGENT]), wait: waitOf(call) });
  }
  at('rows').style.height = `${Math.max(tops[count], 60)}px`;
  showAnew();
}

// Makes all that is seen anew.
function showAnew() {
  const width = lanes.width, height = tops.at(-1);
  const svg = draw('svg', 'graph', { width, height, 'aria-hidden': true });
  for (const { kind, x } of lanes) svg.append(draw('line', `life ${kind}`, { x1: x, x2: x, y1: 0, y2: height }));
  svg.append(draw('g', 'bars', {}));
  seen.clear();
  at('rows').replaceChildren(...height > 0 ? [svg] : [make('p', 'nothing', 'Nothing is as it was asked for.')]);
  at('rows').setAttribute('aria-activedescendant', current < 0 ? '' : `row-${current}`);
  show();
}

// Makes the rows that have come into sight, and removes those that have gone.
function show() {
  const place = at('rows').getBoundingClientRect().top, svg = at('rows').firstChild;
  const first = Math.max(0, rowAt(-place) - 6), end = Math.min(tops.length - 1, rowAt(innerHeight - place) + 7);
  for (const [n, parts] of seen) {
    if (n >= first && n < end) continue;
    parts.forEach(part => part.remove());
    seen.delete(n);
  }
  for (let n = end - 1, behind = null; n >= first; n--) {
    if (!seen.has(n)) {
      seen.set(n, [rowElement(n), marksOf(rows[listed[from + n]], tops[n] + HEIGHT / 2)]);
      at('rows').insertBefore(seen.get(n)[0], behind);
      svg.append(seen.get(n)[1]);
    }
    behind = seen.get(n)[0];
  }
  if (end > first) svg.querySelector('.bars').replaceChildren(...barsIn(first, end));
}

function rowElement(n) {
  const i = listed[from + n], element = make('div', i === current ? 'row current' : 'row', mainOf(i));
  if (open.has(i)) element.append(moreOf(i));
  element.style.top = `${tops[n]}px`;
  element.style.left = `${lanes.width}px`;
  Object.assign(element, { id: `row-${i}`, role: 'option', ariaSelected: i === current, ariaExpanded: open.has(i) });
  element.addEventListener('click', event => {
    if (event.target.closest('.more') || String(getSelection())) return;
    current = i;
    toggle(i);
  });
  return element;
}

function mainOf(i) {
  const row = rows[i], failed = failedIn(row), fired = row[REACTIONS].length - failed;
  const look = row[KIND] === REFUSED ? 'refused' : firstWord(row[RESULT]);
  const result = make('span', '', make('span', `term ${look}`, resultOf(row)), make('span', 'waited', waitWords(i)));
  const badge = make('span', 'reactions');
  if (fired) badge.append(make('b', '', `${number(fired)} fired`), ' ');
  if (failed) badge.append(make('b', 'failed', `${number(failed)} failed`));
  return make('div', 'main', make('span', 'step', number(row[LEVEL] + 1)),
    coloured(make('span', 'agent name', agentName(row[AGENT])), row[AGENT]),
    make('span', row[KIND] === CALL ? 'term' : 'term echo', whatOf(i)), result,
    make('span', 'centre name', centreName(row)), badge);
}

// The bars of the waits that are seen.
function barsIn(first, end) {
  return bars.filter(bar => bar.end >= first && bar.begin < end).map(({ begin, end: last, x, wait }) => {
    const y = begin < first ? tops[first] : tops[begin] + HEIGHT / 2;
    const below = last >= end ? tops[end] : tops[last] + HEIGHT / 2, width = wait === 0 ? 3 : 8;
    const look = wait < 0 ? 'wait still' : wait === 0 ? 'wait brief' : 'wait';
    return draw('rect', look, { x: x - width / 2, y, width, height: Math.max(below - y, 2), rx: 2 });
  });
}

// The arrow of a row, with marks for its reactions; of what was refused, a cross.
function marksOf(row, y) {
  const own = laneAt('agent', row[AGENT]), there = laneAt('centre', row[CENTRE]), failed = failedIn(row);
  if (row[KIND] === REFUSED) return draw('path', 'refused', { d: `M${own - 4} ${y - 4}l8 8m0 -8l-8 8` });
  const [begin, tip, back] = row[KIND] === ANSWER ? [there, own + 5, 6] : [own, there - 5, -6];
  const arrow = draw('g', '', {}), fired = row[REACTIONS].length - failed;
  arrow.style.color = `hsl(${hue(row[AGENT])} 62% var(--strong))`;
  arrow.append(draw('line', row[KIND] === LOOK ? 'arrow look' : 'arrow', { x1: begin, x2: tip, y1: y, y2: y }),
    draw('path', 'head', { d: `M${tip} ${y}l${back} -4v8z` }));
  if (fired) arrow.append(draw('circle', 'fired', { cx: there, cy: y, r: 4.5 }));
  if (failed) arrow.append(draw('circle', 'failed', { cx: there, cy: y + (fired ? 8 : 0), r: 2.5 }));
  return arrow;
}

const EFFECTS = { '+': 'put', '-': 'took', '=': 'read' };

function reactionOf([fired, clause, goal, ...effects], isUndone) {
  const item = make('li', fired ? 'fired' : 'failed', make('b', '', `clause ${clause} ${fired ? 'fired' : 'failed'}`));
  if (!fired) item.append(` at goal ${goal}`);
  if (effects.length === 0) item.append(fired ? ', with no effect on tuples' : '');
  else if (isUndone || !fired) item.append(', undone:');
  for (const effect of effects) {
    const word = EFFECTS[effect[0]];
    item.append(' ', make('span', word, word), ' ', make('span', 'term', effect.slice(1)));
  }
  return item;
}

function moreOf(i) {
  const row = rows[i], wait = waitWords(i), line = (...parts) => make('p', '', ...parts);
  const kind = ['Call', 'Answer to call', 'Poll', 'Call'][row[KIND]];
  const place = row[KIND] === REFUSED ? '; it stands in no history' : `, entry ${number(placeThere[i])} of its history`;
  const title = `${kind} ${row[NUMBER]} of ${agentName(row[AGENT])} at ${centreName(row)}${place}`;
  const more = make('div', 'more', line(title)), term = text => make('span', 'term', text);
  if (row[KIND] !== REFUSED) more.append(line(term(whatOf(i)), ' = ', term(resultOf(row))));
  else more.append(line(`${firstWord(row[RESULT])}: ${CAUSES[firstWord(row[RESULT])]}`));
  if (isOver(row)) more.append(line('the reactions went over the budget: all is as it was before'));
  if (wait) more.append(line(row[KIND] === CALL ? 'pending ' : 'answered ', wait, ' of this history'));
  if (row[PARTNER] >= 0) {
    more.append(button('partner', row[KIND] === CALL ? 'To its answer' : 'To its call', () => go(row[PARTNER])));
  }
  more.append(make('ol', '', ...row[REACTIONS].map(reaction => reactionOf(reaction, isOver(row)))));
  return more;
}

// How high a row is, unfolded.
function measure(i) {
  const element = make('div', 'row', mainOf(i), moreOf(i));
  element.style.left = `${lanes.width}px`;
  at('rows').append(element);
  const height = element.offsetHeight;
  element.remove();
  return height;
}

function toggle(i) {
  if (!open.delete(i)) open.set(i, measure(i));
  lay();
}

// Goes to a row, and unfolds it; where it isn't listed, everything is.
function go(i) {
  if (!isListed(i)) ask(EVERYTHING);
  const place = placeOf(i);
  if (place < from || place >= from + PART) showPart(from = Math.floor(place / PART) * PART);
  current = i;
  if (!open.has(i)) toggle(i);
  bringToView(place - from);
  at('rows').focus({ preventScroll: true });
}

function bringToView(n) {
  const top = at('rows').getBoundingClientRect().top, above = top + tops[n], below = top + tops[n + 1];
  const hidden = at('top').offsetHeight;
  if (above < hidden) scrollBy(0, above - hidden - HEIGHT);
  else if (below > innerHeight) scrollBy(0, Math.min(below - innerHeight + HEIGHT, above - hidden));
  showAnew();
}

// Takes in what is asked for anew, and keeps the rest. The address tells it, so that it can be kept.
function ask(change) {
  Object.assign(asked, change);
  for (const key of ['agent', 'centre', 'show']) at(key).value = asked[key];
  if (wordsIn(at('words').value).join() !== asked.words.join()) at('words').value = asked.words.join(' ');
  const parts = new URLSearchParams();
  if (asked.agent >= 0) parts.set('agent', agentName(asked.agent));
  if (asked.centre >= 0) parts.set('centre', centres[asked.centre]);
  if (asked.words.length) parts.set('words', asked.words.join(' '));
  if (asked.show !== 'all') parts.set('show', asked.show);
  history.replaceState(null, '', `#${parts}`);
  list();
}

const wordsIn = text => text.toLowerCase().split(/\s+/).filter(word => word);

function askByAddress() {
  const parts = new URLSearchParams(location.hash.slice(1)), show = parts.get('show') ?? '';
  ask({ agent: agents.indexOf(parts.get('agent')), centre: centres.indexOf(parts.get('centre')),
    words: wordsIn(parts.get('words') ?? ''), show: Object.hasOwn(SHOWS, show) ? show : 'all' });
}

function onKey(event) {
  if (event.target !== at('rows') || event.ctrlKey || event.altKey || event.metaKey) return;
  const here = current >= 0 && isListed(current) ? placeOf(current) - from : -1, last = countHere() - 1;
  const far = Math.max(1, Math.floor((innerHeight - at('top').offsetHeight) / HEIGHT) - 2);
  const moves = { ArrowDown: here + 1, ArrowUp: here - 1, PageDown: here + far, PageUp: here - far, Home: 0, End: last };
  if (event.key in moves && last >= 0) {
    const n = Math.max(0, Math.min(moves[event.key], last));
    current = listed[from + n];
    bringToView(n);
  } else if ((event.key === 'Enter' || event.key === ' ') && here >= 0) toggle(current);
  else if (event.key === 'p' && here >= 0 && rows[current][PARTNER] >= 0) go(rows[current][PARTNER]);
  else return;
  event.preventDefault();
}

function begin() {
  for (const [id, names] of [['agent', agents], ['centre', centres]]) {
    at(id).append(new Option('all', -1), ...names.map((name, place) => new Option(name, place)));
    at(id).addEventListener('change', () => ask({ [id]: Number(at(id).value) }));
  }
  at('show').append(...Object.keys(SHOWS).map(key => new Option(SHOWS[key][0], key)));
  showTitle();
  showCounts();
  askByAddress();
  at('show').addEventListener('change', () => ask({ show: at('show').value }));
  at('words').addEventListener('input', () => ask({ words: wordsIn(at('words').value) }));
  at('filters').addEventListener('submit', event => event.preventDefault());
  at('clear').addEventListener('click', () => ask(EVERYTHING));
  at('rows').addEventListener('keydown', onKey);
  addEventListener('keydown', event => {
    if (event.key !== '/' || /INPUT|SELECT/.test(event.target.tagName)) return;
    at('words').focus();
    event.preventDefault();
  });
  addEventListener('hashchange', askByAddress);
  addEventListener('scroll', () => requestAnimationFrame(show), { passive: true });
  addEventListener('resize', () => {
    for (const i of open.keys()) open.set(i, measure(i));
    lay();
  });
}

begin();
"#;
